ghost use Rattle.std.specs.Prelude.{◌≡◌, IfSome, IfNone};
ghost use Rattle.oberon_scan.specs.Comments.{Closes, StaysOpen};
ghost use Rattle.oberon_scan.specs.Mark.{mark_of};

/// What two bytes inside a comment are.
#[derive(Clone, Copy)]
enum Mark {
    Opens,
    Closes,
    Neither,
}

/// What follows the comment whose `(*` stands before `body`, or None where it is open at the end.
pub(crate) fn after_comment(body: &[u8]) -> Option<&[u8]>
    ensures closed { IfSome result (λ rest. Closes 1 body.now rest.now) }
    ensures open { IfNone result (StaysOpen 1 body.now) }
{
    let mut depth = 1usize;
    let mut at = 0;
    while at + 1 < body.len() {
        match mark_of(body[at], body[at + 1]) {
            Mark::Opens => {
                depth += 1;
                at += 2;
            }
            Mark::Closes if depth == 1 => return Some(body.split_at(at + 2).1),
            Mark::Closes => {
                depth -= 1;
                at += 2;
            }
            Mark::Neither => at += 1,
        }
    }
    None
}

fn mark_of(first: u8, second: u8) -> Mark
    ensures { result ≡ mark_of first second }
{
    match (first, second) {
        (b'(', b'*') => Mark::Opens,
        (b'*', b')') => Mark::Closes,
        _ => Mark::Neither,
    }
}
