use super::first_fault::fault_in;
use grammar::kind::Kind;
use model::refusal::Refusal;
use text::check::check;
use text::fault::{Fault, Layer};
use text::header::Header;

fn fault_of_log(text: &[u8]) -> (u32, u32) {
    fault_in(Kind::Log, text)
}

#[test]
fn a_fault_tells_number_line_and_layer(rt: HostRuntime) {
    let malformed = Fault {
        refusal: Refusal::MalformedLine,
        line: 1,
        layer: Layer::Text,
    };
    assert_eq!(rt; check(Kind::Log, b"trace=run\n"), Err(malformed));
    let out_of_range = Fault {
        refusal: Refusal::SizeOutOfRange,
        line: 2,
        layer: Layer::Header,
    };
    assert_eq!(rt;
        check(Kind::Log, b"trace=log\nboards=9\n"),
        Err(out_of_range)
    );
    assert_eq!(rt; Fault::new(Refusal::TextTooLong, 0).layer, Layer::Text);
    assert_eq!(rt; Fault::new(Refusal::NotOwner, 7).layer, Layer::Judge);
    let header = Header {
        boards: 2,
        cells: 1,
        entries: 1,
        start: 0,
    };
    assert_eq!(rt;
        check(
            Kind::Log,
            b"trace=log\nboards=2\ncells=1\nentries=1\nstart=0\n",
        ),
        Ok(header)
    );
}

// A text without an end, without a header, or with the wrong one.
#[test]
fn a_header_is_complete(rt: HostRuntime) {
    let cases: [(&[u8], (u32, u32)); 16] = [
        (b"", (4, 1)),
        (b"\n", (4, 1)),
        (b"# only a remark\n", (4, 2)),
        (b"# not even ended", (4, 1)),
        (b"trace=log", (4, 1)),
        (b"trace=log\n", (4, 2)),
        (b"trace=log \n", (4, 1)),
        (b"trace=Log\n", (4, 1)),
        (b"trace=log\nboards=2\ncells=1\nentries=1\n", (4, 5)),
        (b"trace=log\nboards=2\ncells=1\nentries=1\n# more\n", (4, 6)),
        (b"trace=log\nboards=2\ncells=1\nentries=1\nstart=0", (4, 5)),
        (
            b"trace=log\nboards=2\nboards=2\ncells=1\nentries=1\nstart=0\n",
            (4, 3),
        ),
        (
            b"trace=log\ncells=1\nboards=2\nentries=1\nstart=0\n",
            (4, 2),
        ),
        (
            b"trace=log\r\nboards=2\r\ncells=1\r\nentries=1\r\nstart=0\r\n",
            (4, 1),
        ),
        (
            b"trace=log\nboards=2\ncells=1\nentries=1\nstart=0\nstart=0\n",
            (4, 6),
        ),
        (
            b"# a\ntrace=log\n# b\n#\nboards=2\ncells=1\n## c\nentries=1\nstart=0\n#",
            (4, 10),
        ),
    ];
    for (text, want) in cases {
        assert_eq!(rt; fault_of_log(text), want);
    }
}

// The first header line out of range goes before any fault of a later line.
#[test]
fn header_numbers_are_in_range(rt: HostRuntime) {
    let cases: [(&[u8], (u32, u32)); 14] = [
        (
            b"trace=log\nboards=0\ncells=0\nentries=1\nstart=0\n",
            (3, 2),
        ),
        (
            b"trace=log\nboards=8\ncells=64\nentries=8\nstart=4294967295\n",
            (0, 0),
        ),
        (b"trace=log\nboards=9\n", (3, 2)),
        (b"trace=log\nboards=09\n", (4, 2)),
        (b"trace=log\nboards=\n", (4, 2)),
        (b"trace=log\nboards=1.\n", (4, 2)),
        (b"trace=log\nboards=1\ncells=0\n", (3, 3)),
        (b"trace=log\nboards=1\ncells=65\nentries=9\n", (3, 3)),
        (b"trace=log\nboards=1\ncells=1\nentries=0\n", (3, 4)),
        (
            b"trace=log\nboards=1\ncells=1\nentries=9\nstart=x\n",
            (3, 4),
        ),
        (
            b"trace=log\nboards=1\ncells=1\nentries=1\nstart=4294967296\n",
            (4, 5),
        ),
        (b"trace=run\nboards=9\n", (4, 1)),
        (b"# a\n# b\ntrace=run\nboards=9\n", (4, 3)),
        (b"trace=log\n# a\nboards=9\n", (3, 3)),
    ];
    for (text, want) in cases {
        assert_eq!(rt; fault_of_log(text), want);
    }
}
