use grammar::kind::Kind;
use text::check::check;

// The header of a log, which steps may follow.
pub(crate) const LOG: &[u8] = b"trace=log\nboards=2\ncells=1\nentries=1\nstart=0\n";

// The number and the line of the first fault, or 0 and 0 where there is none: no Option, since these pairs are what the
// tables of expected values hold.
pub(crate) fn fault_in(kind: Kind, text: &[u8]) -> (u32, u32) {
    check(kind, text)
        .err()
        .map_or((0, 0), |fault| (fault.refusal.number(), fault.line))
}
