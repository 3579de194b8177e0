// Each row is a command over one file, `one.cc`, and what comes of it.

use mm_base::mem::{MemFiles, MemSink};
use mm_base::sure::SureSource;
use mm_top::mm_main;
use std::alloc::{AllocError, Global};
use std::test::Fail;

#[derive(Drop)]
struct Outcome {
    status: u8,
    out: Vec<u8>,
    err: Vec<u8>,
}

// Which call of each object fails, from 1; none where it is 0.
#[derive(Clone, Copy)]
struct Fails {
    read: u64,
    out: u64,
    err: u64,
}

const NONE: Fails = Fails {
    read: 0,
    out: 0,
    err: 0,
};

fn sink(alloc: Global, fails: u64) -> Result<MemSink, AllocError> {
    Ok(MemSink {
        got: Vec::new(alloc),
        chunk: 2,
        fails: vec![in alloc; fails]?,
        calls: 0,
        faults: 0,
    })
}

fn run_command(
    alloc: Global,
    words: &[&str],
    text: Vec<u8>,
    fails: Fails,
) -> Result<Outcome, AllocError> {
    let mut all = Vec::new(alloc);
    for word in words {
        all.push(String::from_str(alloc, word)?)?;
    }
    let mut held = Vec::new(alloc);
    held.push((String::from_str(alloc, "one.cc")?, text))?;
    let mut files = MemFiles {
        held,
        fails: vec![in alloc; fails.read]?,
        calls: 0,
        faults: 0,
    };
    let mut input = SureSource {
        bytes: Vec::new(alloc),
        next: 0,
    };
    let mut out = sink(alloc, fails.out)?;
    let mut err = sink(alloc, fails.err)?;
    let status = mm_main(
        alloc,
        all.as_slice(),
        &mut files,
        &mut input,
        &mut out,
        &mut err,
    );
    let MemSink { got, .. } = out;
    let MemSink { got: said, .. } = err;
    Ok(Outcome {
        status,
        out: got,
        err: said,
    })
}

fn linked(alloc: Global, text: &str) -> Result<Outcome, AllocError> {
    let text = Vec::from_slice(alloc, text.as_bytes())?;
    run_command(alloc, &["link", "one.cc"], text, NONE)
}

// A unit of this many bytes, which ends in white space.
fn padded(alloc: Global, length: usize) -> Result<Vec<u8>, AllocError> {
    let mut text = Vec::from_slice(alloc, b"int main() { return 7; }")?;
    text.resize(length, b' ')?;
    Ok(text)
}

#[test]
fn a_sum_is_put(rt: HostRuntime) -> Result<(), Fail> {
    let o = linked(rt.alloc(), "int main() { mm_put(1 + 2); return 0; }")?;
    assert_eq!(rt; o.status, 0);
    assert!(rt; o.err.is_empty());
    let text =
        "extern void mm_put ( int ) ;\nextern int mm_get ( void ) ;\nextern int mm_more ( void ) ;\nextern void mm_trap ( int ) ;\nextern char * mm_new ( unsigned ) ;\nint main ( void ) {\nint i0 = 0 ;\nint i1 = 0 ;\nint i2 = 0 ;\ni0 = 1 ;\ni1 = 2 ;\ni2 = i1 < 0 ;\nif ( i2 ) {\ni2 = ( - 2147483647 - 1 ) - i1 ;\ni2 = i0 < i2 ;\n}\nelse {\ni2 = 2147483647 - i1 ;\ni2 = i2 < i0 ;\n}\nif ( i2 ) {\nmm_trap ( 1 ) ;\n}\ni0 = i0 + i1 ;\nmm_put ( i0 ) ;\ni0 = 0 ;\nreturn i0 ;\nreturn 0 ;\n}\n";
    assert_eq!(rt; o.out.as_slice(), text.as_bytes());
    Ok(())
}

#[test]
fn comments_are_passed_over(rt: HostRuntime) -> Result<(), Fail> {
    let plain = linked(rt.alloc(), "int main() { return 1; }")?;
    assert_eq!(rt; plain.status, 0);
    let o = linked(rt.alloc(), "int main() { return /* one */ 1; } // done")?;
    assert_eq!(rt; o.status, 0);
    assert_eq!(rt; o.out.as_slice(), plain.out.as_slice());
    Ok(())
}

#[test]
fn the_first_fault_of_a_text_is_told(rt: HostRuntime) -> Result<(), Fail> {
    let rows = [
        ("int main() { mm_put(x); return 0; }", "one.cc:1:21: S1 x\n"),
        ("int f() { return 0; }", "one.cc:1:1: P5 main\n"),
        ("int main() { mm_put(x); return 0 }", "one.cc:1:34: Y1\n"),
        ("int main() { return 1 ++ 2; }", "one.cc:1:26: Y1\n"),
        ("int main() {\nreturn 1 + ; }", "one.cc:2:12: Y1\n"),
        ("int main() { return 2147483648; }", "one.cc:1:21: L3\n"),
        ("int main() { return 007 }", "one.cc:1:21: L1\n"),
        ("", "one.cc:1:1: P5 main\n"),
        ("// no main\n", "one.cc:1:1: P5 main\n"),
    ];
    for (text, message) in rows {
        let o = linked(rt.alloc(), text)?;
        assert_eq!(rt; o.status, 1);
        assert_eq!(rt; o.err.as_slice(), message.as_bytes());
        assert!(rt; o.out.is_empty());
    }
    Ok(())
}

#[test]
fn words_that_are_no_command_are_refused(rt: HostRuntime) -> Result<(), Fail> {
    let commands: [&[&str]; 6] = [
        &[],
        &["link"],
        &["link", ""],
        &["link", "-x"],
        &["link", "one.mmu"],
        &["link", "one.cc", "one.cc"],
    ];
    for words in commands {
        let text = Vec::from_slice(rt.alloc(), b"int main() {}")?;
        let o = run_command(rt.alloc(), words, text, NONE)?;
        assert_eq!(rt; o.status, 2);
        assert_eq!(rt; o.err.as_slice(), b"mmc: usage\n".as_slice());
    }
    let text = Vec::from_slice(rt.alloc(), b"int main() {}")?;
    let o = run_command(rt.alloc(), &["link", "--", "one.cc"], text, NONE)?;
    assert_eq!(rt; o.status, 0);
    Ok(())
}

#[test]
fn a_missing_file_and_failing_objects_are_told(rt: HostRuntime) -> Result<(), Fail> {
    let absent = run_command(rt.alloc(), &["link", "two.cc"], Vec::new(rt.alloc()), NONE)?;
    assert_eq!(rt; absent.status, 3);
    assert_eq!(rt; absent.err.as_slice(), b"mmc: no file two.cc\n".as_slice());
    let absent = linked(rt.alloc(), "#include \"two.h\"\nint main() {}")?;
    assert_eq!(rt; absent.status, 3);
    assert_eq!(rt; absent.err.as_slice(), b"mmc: no file two.h\n".as_slice());
    let words = ["link", "one.cc"];
    let unread = Fails { read: 1, ..NONE };
    let o = run_command(rt.alloc(), &words, padded(rt.alloc(), 30)?, unread)?;
    assert_eq!(rt; o.status, 3);
    assert_eq!(rt; o.err.as_slice(), b"mmc: read failed one.cc\n".as_slice());
    let unwritten = Fails { out: 2, ..NONE };
    for (word, front) in [("link", "ex"), ("check", "ok")] {
        let words = [word, "one.cc"];
        let o = run_command(rt.alloc(), &words, padded(rt.alloc(), 30)?, unwritten)?;
        assert_eq!(rt; o.status, 4);
        assert_eq!(rt; o.out.as_slice(), front.as_bytes());
        assert_eq!(rt; o.err.as_slice(), b"mmc: write failed\n".as_slice());
    }
    let unsaid = Fails { err: 2, ..NONE };
    let o = run_command(rt.alloc(), &[], Vec::new(rt.alloc()), unsaid)?;
    assert_eq!(rt; o.status, 2);
    assert_eq!(rt; o.err.as_slice(), b"mm".as_slice());
    Ok(())
}

#[test]
fn a_file_has_at_most_a_mebibyte(rt: HostRuntime) -> Result<(), Fail> {
    for word in ["link", "check"] {
        let words = [word, "one.cc"];
        let o = run_command(rt.alloc(), &words, padded(rt.alloc(), 1_048_576)?, NONE)?;
        assert_eq!(rt; o.status, 0);
        let o = run_command(rt.alloc(), &words, padded(rt.alloc(), 1_048_577)?, NONE)?;
        assert_eq!(rt; o.status, 13);
        assert_eq!(rt;
            o.err.as_slice(),
            b"one.cc: longer than 1048576 bytes\n".as_slice()
        );
        assert!(rt; o.out.is_empty());
    }
    Ok(())
}
