ghost use Rattle.std.specs.Prelude.{◌≡◌, ◌≤◌, ◌<◌, ◌+◌, IfOk, IfErr, OnOk, length};
ghost use Rattle.std.specs.Str.{IsAscii};
ghost use Rattle.bb_tree.specs.Depth.{depth_limit};
ghost use Rattle.bb_dts.specs.Descent.{nodes_read, items_at, RefusesWalk};
ghost use Rattle.bb_dts.specs.declared.content.Item.TheVariants.{IsNode};

use crate::DtsError;
use crate::content::{Content, Item};
use crate::label::{Level, Waiting, read_labels};
use crate::next_token::next_token;
use crate::reader::Reader;
use crate::token_kind::{Mode, TokenKind};
use crate::value::{empty_prop, read_property};
use crate::word::word_text;
use bb_tree::DEPTH_LIMIT;

impl Reader {
    ghost use Rattle.bb_dts.specs.Readers.{AddsFewNodes, LabelsOnly, body_walk, items_walk};
    ghost use Rattle.bb_dts.specs.Readers.{name_walk, node_walk, walk_after_body_read};
    ghost use Rattle.bb_dts.specs.Readers.{walk_after_item_read};

    /// Reads the body of the node at this level, after its `{`, with its `}`.
    #[cycle(body)]
    pub(crate) fn read_body<'a>(
        &mut self,
        level: usize,
        text: &'a [u8],
    ) -> Result<(Content, &'a [u8]), DtsError>
        requires within { length text.now ≤ self.old.input.total }
        requires shallow { level ≤ depth_limit }
        ensures ok { IfOk result (λ r. body_walk self.old level text.now
            ≡ walk_after_body_read self.old self.new level r.0 r.1.now) }
        ensures kept { OnOk result (LabelsOnly self.old self.new) }
        ensures counted { IfOk result (λ r. nodes_read r.0 + length r.1.now ≤ length text.now) }
        ensures refused { IfErr result (RefusesWalk (body_walk self.old level text.now)) }
        ensures shorter { IfOk result (λ r. length r.1.now < length text.now) }
    {
        let mut content = Content::none(self.input.alloc);
        let mut has_nodes = false;
        let mut rest = text;
        loop {
            let (item, behind) = self.read_item(level, has_nodes, &mut content, rest)?;
            if item == Item::IsEnd {
                return Ok((content, behind));
            }
            has_nodes = item == Item::IsNode;
            rest = behind;
        }
    }

    // Reads a property or a node, with its `;`, or the `}`.
    #[cycle(body)]
    #[tactic(auto, using(crate::proofs::BodyLemmas::item_step))]
    fn read_item<'a>(
        &mut self,
        level: usize,
        has_nodes: bool,
        content: &mut Content,
        text: &'a [u8],
    ) -> Result<(Item, &'a [u8]), DtsError>
        requires within { length text.now ≤ self.old.input.total }
        requires shallow { level ≤ depth_limit }
        ensures ok { IfOk result (λ r. items_walk self.old level has_nodes content.old text.now
            ≡ walk_after_item_read self.old self.new level content.new r.0 r.1.now) }
        ensures kept { OnOk result (LabelsOnly self.old self.new) }
        ensures counted { IfOk result
            (λ r. AddsFewNodes content.old content.new (length text.now) (length r.1.now)) }
        ensures refused { IfErr result
            (RefusesWalk (items_walk self.old level has_nodes content.old text.now)) }
        ensures shorter { IfOk result (λ r. length r.1.now < length text.now) }
    {
        let (waiting, token) = read_labels(self.input, items_at(has_nodes), text)?;
        match token.kind {
            TokenKind::CloseBrace if waiting.is_empty() => Ok((Item::IsEnd, token.rest)),
            TokenKind::Name => {
                self.read_named(level, has_nodes, content, &waiting, token.word, token.rest)
            }
            _ => Err(DtsError::Unexpected(token.at)),
        }
    }

    // Reads what follows the name of a property or a node.
    #[cycle(body)]
    #[tactic(auto, using(crate::proofs::BodyLemmas::named_step, crate::proofs::BodyLemmas::walk_after_prop_at))]
    fn read_named<'a>(
        &mut self,
        level: usize,
        has_nodes: bool,
        content: &mut Content,
        waiting: &Vec<Waiting>,
        name: &[u8],
        text: &'a [u8],
    ) -> Result<(Item, &'a [u8]), DtsError>
        requires within { length text.now ≤ self.old.input.total }
        requires shallow { level ≤ depth_limit }
        requires plain { IsAscii name.now }
        ensures ok { IfOk result (λ r.
            name_walk self.old level has_nodes content.old waiting.now.items name.now text.now
            ≡ walk_after_item_read self.old self.new level content.new r.0 r.1.now) }
        ensures kept { OnOk result (LabelsOnly self.old self.new) }
        ensures counted { IfOk result
            (λ r. AddsFewNodes content.old content.new (length text.now) (length r.1.now)) }
        ensures refused { IfErr result (RefusesWalk
            (name_walk self.old level has_nodes content.old waiting.now.items name.now text.now)) }
        ensures shorter { IfOk result (λ r. length r.1.now < length text.now) }
    {
        let token = next_token(Mode::Names, self.input.total, text)?;
        match token.kind {
            TokenKind::OpenBrace => {
                let rest = self.read_node(level, content, waiting, name, token.at, token.rest)?;
                Ok((Item::IsNode, rest))
            }
            TokenKind::Equals if !has_nodes => {
                let (prop, rest) = read_property(self.input, name, token.rest)?;
                content.props.push(prop)?;
                Ok((Item::IsProp, rest))
            }
            TokenKind::Semicolon if !has_nodes => {
                content.props.push(empty_prop(self.input.alloc, name)?)?;
                Ok((Item::IsProp, token.rest))
            }
            _ => Err(DtsError::Unexpected(token.at)),
        }
    }

    // Reads the body of a node inside another one, after its `{`, and its `;`.
    #[cycle(body)]
    #[tactic(auto, using(crate::proofs::BodyLemmas::close_step, crate::proofs::BodyLemmas::inside_after_body, crate::proofs::BodyLemmas::inside_refusal_walk, crate::proofs::BodyLemmas::inside_unless_memory))]
    fn read_node<'a>(
        &mut self,
        level: usize,
        content: &mut Content,
        waiting: &Vec<Waiting>,
        name: &[u8],
        at: usize,
        text: &'a [u8],
    ) -> Result<&'a [u8], DtsError>
        requires within { length text.now ≤ self.old.input.total }
        requires shallow { level ≤ depth_limit }
        requires plain { IsAscii name.now }
        ensures ok { IfOk result (λ rest.
            node_walk self.old level content.old waiting.now.items name.now at text.now
            ≡ walk_after_item_read self.old self.new level content.new IsNode rest.now) }
        ensures kept { OnOk result (LabelsOnly self.old self.new) }
        ensures counted { IfOk result
            (λ rest. AddsFewNodes content.old content.new (length text.now) (length rest.now)) }
        ensures refused { IfErr result (RefusesWalk
            (node_walk self.old level content.old waiting.now.items name.now at text.now)) }
        ensures shorter { IfOk result (λ rest. length rest.now < length text.now) }
    {
        let len = self.path.len();
        self.enter(waiting, name)?;
        if level == DEPTH_LIMIT {
            return Err(DtsError::TooDeep(at));
        }
        let (child, rest) = self.read_body(level + 1, text)?;
        self.leave(len);
        let name = word_text(self.input.alloc, name)?;
        content.add_node(name, child)?;
        let end = next_token(Mode::Names, self.input.total, rest)?;
        match end.kind {
            TokenKind::Semicolon => Ok(end.rest),
            _ => Err(DtsError::Unexpected(end.at)),
        }
    }
}

fn items_at(has_nodes: bool) -> Level
    ensures { result ≡ items_at has_nodes }
{
    if has_nodes {
        Level::AtNodes
    } else {
        Level::AtProps
    }
}
