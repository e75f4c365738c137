//! What is left of a fragment on each side of a place. Of one that may be kept it may be kept too.

ghost use Rattle.std.specs.Prelude.{◌≡◌, IfSome};
ghost use Rattle.std.specs.Option.{option_to_list};
ghost use Rattle.span_list.specs.Spans.{IsSpan, rest_before, rest_from};

use fs_types::Frag;

/// What of a fragment stands before a place of the file, if anything.
pub fn rest_before(f: Frag, at: u64) -> Option<Frag>
    ensures rest { option_to_list result ≡ rest_before at f }
    ensures span { IsSpan f → IfSome result IsSpan }
{
    if at <= f.at {
        return None;
    }
    Some(Frag {
        len: f.len.min(at - f.at),
        ..f
    })
}

/// What of a fragment that may be kept stands from a place of the file on, if anything. It begins
/// at the byte of its piece that stood there.
pub fn rest_from(f: Frag, at: u64) -> Option<Frag>
    requires { IsSpan f }
    ensures rest { option_to_list result ≡ rest_from at f }
    ensures span { IfSome result IsSpan }
{
    let end = f.at + f.len;
    if end <= at {
        return None;
    }
    let begin = at.max(f.at);
    Some(Frag {
        at: begin,
        len: end - begin,
        piece: f.piece,
        from: f.from + (begin - f.at) as u32,
    })
}
