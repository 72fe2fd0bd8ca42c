ghost use Rattle.std.specs.Prelude.{◌≡◌, ◌≢◌, ◌+◌, ◌<◌, ◌≤◌, ◌++◌, [], All, IfOk, OnOk, drop};
ghost use Rattle.std.specs.Prelude.{length, map, replicate, take};
ghost use Rattle.std.specs.List.{common_prefix_len};
ghost use Rattle.std.specs.Str.{bytes_eq};
ghost use Rattle.bb_layout.specs.Record.{grown_by};
ghost use Rattle.bb_layout.specs.Variables.{IsWellFormed};
ghost use Rattle.bb_dtbrec.specs.Layouts.{field_for};
ghost use Rattle.bb_dtbrec.specs.Spine.{IsOpened, SpellsNodes, begin_piece, end_piece, marks};
ghost use Rattle.bb_dtbrec.specs.Spine.{nodes_written};

use crate::piece::Piece;
use crate::token::{begin, end, field};
use bb_base::{NoMemory, TextList};
use bb_layout::{VarList, shared_len};
use std::alloc::Global;

/// The pieces of the nodes of variables.
#[tactic(auto, using(crate::proofs::Writing::spelt_first, crate::proofs::Writing::spelt_last))]
pub(crate) fn nodes_of(alloc: Global, vars: &VarList) -> Result<Vec<Piece>, NoMemory>
    requires { All IsWellFormed vars.now }
    ensures { IfOk result (λ pieces. pieces.items
        ≡ nodes_written (grown_by field_for vars.now).nodes) }
{
    let mut pieces = Vec::new(alloc);
    let mut ends = Vec::new(alloc);
    for place in 0..vars.len() {
        add_var(alloc, &mut pieces, &mut ends, vars, place)?;
    }
    end_nodes(alloc, &mut pieces, ends.len())?;
    Ok(pieces)
}

// Writes the property of the variable at a place, in the nodes on its path.
fn add_var(
    alloc: Global,
    pieces: &mut Vec<Piece>,
    ends: &mut Vec<usize>,
    vars: &VarList,
    place: usize,
) -> Result<(), NoMemory>
    requires formed { All IsWellFormed vars.now }
    requires place { place < length vars.now }
    requires spelt { SpellsNodes (grown_by field_for (take place vars.now))
        pieces.old.items ends.old.items }
    ensures { OnOk result (SpellsNodes (grown_by field_for (take (place + 1) vars.now))
        pieces.new.items ends.new.items) }
{
    let Some(var) = vars.get(place) else {
        unreachable!()
    };
    open_path(alloc, pieces, ends, vars, place, &var.path)?;
    let Some(at) = ends.pop() else { unreachable!() };
    put(pieces, at, field(alloc, var)?)?;
    ends.push(at + 3)?;
    Ok(())
}

// Opens the path of the variable at a place. The nodes on that of the one before it are open: those
// end that the path leaves, and new ones begin. `ends` has the place in the pieces after the
// properties of each open node, the outermost first.
fn open_path(
    alloc: Global,
    pieces: &mut Vec<Piece>,
    ends: &mut Vec<usize>,
    vars: &VarList,
    place: usize,
    path: &TextList,
) -> Result<(), NoMemory>
    requires place { place ≤ length vars.now }
    requires spelt { SpellsNodes (grown_by field_for (take place vars.now))
        pieces.old.items ends.old.items }
    requires led { path.now ≢ [] }
    ensures { OnOk result (IsOpened (grown_by field_for (take place vars.now)) path.now
        pieces.new.items ends.new.items) }
{
    let shared = shared_before(vars, place, path);
    end_nodes(alloc, pieces, ends.len() - shared)?;
    ends.truncate(shared);
    begin_nodes(alloc, pieces, ends, path, shared)?;
    Ok(())
}

// How many names a path has in common with that of the variable before a place, from the first on.
fn shared_before(vars: &VarList, place: usize, path: &TextList) -> usize
    requires { place ≤ length vars.now }
    ensures { result
        ≡ common_prefix_len bytes_eq (grown_by field_for (take place vars.now)).path path.now }
{
    if place == 0 {
        return 0;
    }
    let Some(before) = vars.get(place - 1) else {
        unreachable!()
    };
    shared_len(&before.path, path)
}

// Ends so many open nodes.
fn end_nodes(alloc: Global, pieces: &mut Vec<Piece>, count: usize) -> Result<(), NoMemory>
    ensures { OnOk result (pieces.new.items ≡ pieces.old.items ++ replicate count end_piece) }
{
    for _ in 0..count {
        pieces.push(end(alloc)?)?;
    }
    Ok(())
}

#[tactic(auto, using(crate::proofs::Writing::begun_more, crate::proofs::Writing::marked_more, crate::proofs::Writing::begun_all, crate::proofs::Writing::marked_all))]
// Begins a node for each name of a path from one of them on, and notes where its properties end.
fn begin_nodes(
    alloc: Global,
    pieces: &mut Vec<Piece>,
    ends: &mut Vec<usize>,
    path: &TextList,
    depth: usize,
) -> Result<(), NoMemory>
    ensures pieces { OnOk result (pieces.new.items
        ≡ pieces.old.items ++ map begin_piece (drop depth path.now)) }
    ensures ends { OnOk result (ends.new.items
        ≡ ends.old.items ++ marks (length pieces.old.items) (drop depth path.now)) }
{
    for place in depth..path.len() {
        let Some(name) = path.get(place) else {
            unreachable!()
        };
        pieces.push(begin(alloc, name.as_str())?)?;
        ends.push(pieces.len())?;
    }
    Ok(())
}

// Puts a property between the pieces before a place and those after.
fn put(pieces: &mut Vec<Piece>, at: usize, mut field: Vec<Piece>) -> Result<(), NoMemory>
    requires { at ≤ length pieces.old.items }
    ensures { OnOk result (pieces.new.items
        ≡ take at pieces.old.items ++ (field.items ++ drop at pieces.old.items)) }
{
    let mut behind = pieces.split_off(at)?;
    pieces.append(&mut field)?;
    pieces.append(&mut behind)?;
    Ok(())
}
