ghost use Rattle.std.specs.Prelude.{◌≡◌, option_map};
ghost use Rattle.bb_script_commands.specs.StateNames.{after_dot, below_layout};

/// What stands after the layout's name and a `.`; none where the name doesn't begin with them.
pub(crate) fn below_layout<'a>(layout: &str, name: &'a [u8]) -> Option<&'a [u8]>
    ensures { option_map (λ own. own.now) result ≡ below_layout layout.now name.now }
{
    let layout = layout.as_bytes();
    if name.len() < layout.len() {
        return None;
    }
    let (front, later) = name.split_at(layout.len());
    if front != layout {
        return None;
    }
    after_dot(later)
}

fn after_dot(name: &[u8]) -> Option<&[u8]>
    ensures { option_map (λ own. own.now) result ≡ after_dot name.now }
{
    match name {
        [first, later @ ..] => {
            if *first == b'.' {
                return Some(later);
            }
            None
        }
        [] => None,
    }
}
