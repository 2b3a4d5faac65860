//! Lines and scripts printed in their one spelling, which no word of the program prints but for
//! generated scripts.
use app_script::read_script;
use fsw_base::{EventKind, FilterList, MemSink, Scope, SinkGuard};
use script_lines::{ByteText, Line};
use script_text::{print_line, print_script};
use std::test::Fail;
use text_page::{Page, finish, put};

#[test]
fn lines_are_printed_in_their_one_spelling(rt: HostRuntime) -> Result<(), Fail> {
    let rows = [
        (
            Line::Create {
                pipe: 0,
                depth: 8,
                name: ByteText::new(rt.alloc(), b"")?,
            },
            "create p0 8 -\n",
        ),
        (
            Line::Subscribe {
                id: 0x081f,
                pipe: 63,
                limit: 4,
                scope: Scope::Global,
            },
            "sub 0x081f p63 4 global\n",
        ),
        (
            Line::SendRaw {
                bytes: ByteText::new(rt.alloc(), &[8, 0xaf])?,
                inc: true,
            },
            "sendraw 08af inc\n",
        ),
        (
            Line::SendEvent {
                id: 300,
                kind: EventKind::Error,
                text: ByteText::new(rt.alloc(), b"")?,
            },
            "event 300 3\n",
        ),
        (
            Line::Register {
                filters: FilterList::try_new(&[(300, 0xfffe)]).expect(&rt, "one filter"),
            },
            "evreg 300:0xfffe\n",
        ),
    ];
    for (line, text) in &rows {
        let mut sink = MemSink::new(rt.alloc(), 100, 100, &[])?;
        let mut guard = SinkGuard::new(&mut sink);
        let mut page = Page::new();
        print_line(&mut guard, &mut page, line);
        put(&mut guard, &mut page, b"\n");
        assert_eq!(rt; finish(&mut guard, &mut page), Ok(()));
        assert_eq!(rt; sink.written(), text.as_bytes());
    }
    Ok(())
}

#[test]
fn printed_script_is_read_again(rt: HostRuntime) -> Result<(), Fail> {
    let text = b"set depth 0x10\nset pipes 64\nseq 2049 7\napp A\n\trecv  p0\nsub 2049 p0\napp B\n";
    let printed: &[u8] =
        b"set depth 16\nseq 0x0801 7\napp A\nrecv p0\nsub 0x0801 p0 4 global\napp B\n";
    for spelling in [text.as_slice(), printed] {
        let mut sink = MemSink::new(rt.alloc(), 200, 200, &[])?;
        if let Ok(script) = read_script(rt.alloc(), spelling) {
            assert_eq!(rt;
                print_script(&script, &mut SinkGuard::new(&mut sink)),
                Ok(())
            );
        }
        assert_eq!(rt; sink.written(), printed);
    }
    Ok(())
}

#[test]
fn a_script_of_version_2_begins_with_its_version(rt: HostRuntime) -> Result<(), Fail> {
    let cases: [(&[u8], &[u8]); 3] = [
        (b"app A\n", b"app A\n"),
        (b"script 1\nset pipes 4\napp A\n", b"set pipes 4\napp A\n"),
        (
            b"# new\n script 0x2\nset pipes 4\napp A\n",
            b"script 2\nset pipes 4\napp A\n",
        ),
    ];
    for (text, printed) in cases {
        let mut sink = MemSink::new(rt.alloc(), 200, 200, &[])?;
        if let Ok(script) = read_script(rt.alloc(), text) {
            assert_eq!(rt;
                print_script(&script, &mut SinkGuard::new(&mut sink)),
                Ok(())
            );
        }
        assert_eq!(rt; sink.written(), printed);
    }
    Ok(())
}
