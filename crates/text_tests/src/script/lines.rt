//! Which bytes are which script.

use crate::script::harness::told;
use std::test::Fail;

// Bytes that are a script on a target of this capacity.
const ACCEPTED: &[(&str, u64, &str)] = &[
    ("", 64, ""),
    ("\n", 64, ""),
    ("\n\n#\n# é \u{1f600}\n", 64, ""),
    ("#thread\r\nthread\n", 64, "[]"),
    ("thread", 64, "[]"),
    ("thread\n", 0, "[]"),
    ("thread\nthread\n", 64, "[][]"),
    ("thread\nf", 64, "[f]"),
    ("\nthread\n\n#w\nf\n\n", 64, "[f]"),
    ("thread\nw 5 1 17\nr 5 1\nf\n", 64, "[w 5 1 17|r 5 1|f]"),
    ("thread\nw 60 4 1\n", 64, "[w 60 4 1]"),
    ("thread\nr 0 16\nw 0 16 0\n", 16, "[r 0 16|w 0 16 0]"),
    ("thread\nr 0 1\n", 64, "[r 0 1]"),
    (
        "thread\nw 10 10 18446744073709551615\n",
        64,
        "[w 10 10 18446744073709551615]",
    ),
    (
        "thread\nr 18446744073709551614 1\n",
        18446744073709551615,
        "[r 18446744073709551614 1]",
    ),
    ("thread\npost a\nawait a\n", 64, "[post a|await a]"),
    ("thread\npost a\npost b\n", 64, "[post a|post b]"),
    (
        "thread\npost abcdefghij012345\n",
        64,
        "[post abcdefghij012345]",
    ),
    ("thread\npost 0\nawait 0\n", 64, "[post 0|await 0]"),
    ("thread\npost z9\n", 64, "[post z9]"),
    ("thread\npost thread\n", 64, "[post thread]"),
    // A name is heard as often as it is awaited.
    (
        "thread\nawait a\nawait a\nthread\npost a\nawait a\n",
        64,
        "[await a|await a][post a|await a]",
    ),
    // What is posted later in the bytes is heard by an earlier thread.
    (
        "thread\nawait a\npost b\nthread\nawait b\nthread\npost a\n",
        64,
        "[await a|post b][await b][post a]",
    ),
    (
        "thread\nw 3 1 7\npost a\nthread\nawait a\nw 3 1 8\npost b\nthread\nawait b\nr 3 1\n",
        64,
        "[w 3 1 7|post a][await a|w 3 1 8|post b][await b|r 3 1]",
    ),
    (
        "thread\npost a\nawait b\nthread\npost b\nawait a\n",
        64,
        "[post a|await b][post b|await a]",
    ),
    ("thread\nw 0 1 0\n", 1, "[w 0 1 0]"),
    ("thread\n#w 0 17 0\n", 64, "[]"),
    ("thread\nf\nthread\nf", 64, "[f][f]"),
];

#[test]
fn scripts_are_read(rt: HostRuntime) -> Result<(), Fail> {
    for &(bytes, capacity, says) in ACCEPTED {
        assert_eq!(rt;
            told(rt.alloc(), bytes.as_bytes(), capacity)?.as_str(),
            says,
            "{bytes}"
        );
    }
    Ok(())
}

// Sectors past the capacity, and awaits that nothing ends.
const RANGES_AND_AWAITS: &[(&str, u64, &str)] = &[
    ("thread\nw 60 5 1\n", 64, "Range 2"),
    ("thread\nr 64 1\n", 64, "Range 2"),
    ("thread\nr 63 2\n", 64, "Range 2"),
    ("thread\nw 0 1 1\n", 0, "Range 2"),
    (
        "thread\nr 18446744073709551615 1\n",
        18446744073709551615,
        "Range 2",
    ),
    (
        "thread\nw 18446744073709551615 16 1\n",
        18446744073709551615,
        "Range 2",
    ),
    ("thread\nawait x\n", 64, "NeverPosted 2"),
    (
        "thread\nawait a\npost b\nthread\nawait b\npost a\n",
        64,
        "Stuck 2",
    ),
    // The least line of several.
    (
        "thread\nf\nawait x\nawait y\nthread\nawait z\n",
        64,
        "NeverPosted 3",
    ),
    (
        "thread\npost a\nawait b\nthread\nf\nawait c\npost b\nthread\nawait d\npost c\nthread\nawait b\npost d\n",
        64,
        "Stuck 3",
    ),
    (
        "thread\nf\nthread\nawait a\npost b\nthread\nawait b\npost a\n",
        64,
        "Stuck 4",
    ),
    ("thread\nawait a\npost a\n", 64, "Stuck 2"),
    ("thread\nawait a\npost a\nawait b\n", 64, "NeverPosted 4"),
    (
        "thread\nawait a\nawait a\nthread\nawait a\npost a\nthread\npost b",
        64,
        "Stuck 2",
    ),
];

#[test]
fn ranges_and_awaits_are_judged(rt: HostRuntime) -> Result<(), Fail> {
    for &(bytes, capacity, says) in RANGES_AND_AWAITS {
        assert_eq!(rt;
            told(rt.alloc(), bytes.as_bytes(), capacity)?.as_str(),
            says,
            "{bytes}"
        );
    }
    Ok(())
}

// What is told of several refusals, and where lines may stand.
const ORDER: &[(&str, u64, &str)] = &[
    // The first line that is refused by itself comes before what is awaited.
    ("thread\nawait x\nw 64 1 1\n", 64, "Range 3"),
    ("thread\nawait x\nw 1 17 1\n", 64, "Limit 3"),
    ("thread\nawait x\nx\n", 64, "Form 3"),
    ("thread\nawait a\npost a\nx\n", 64, "Form 4"),
    ("thread\nw 64 1 1\nw 1 17 1\nx\n", 64, "Range 2"),
    ("thread\nw 1 17 1\nw 64 1 1\n", 64, "Limit 2"),
    ("x\nthread\nw 64 1 1\n", 64, "Form 1"),
    // Form comes before Limit, and Limit before Range.
    ("w 1 17 1\n", 64, "Form 1"),
    ("r 64 17\n", 64, "Form 1"),
    ("thread\nr 64 17\n", 64, "Limit 2"),
    ("thread\nr 64 0\n", 64, "Limit 2"),
    // A command stands in a thread.
    ("f\n", 64, "Form 1"),
    ("\n#\nf\nthread\n", 64, "Form 3"),
    ("post a\n", 64, "Form 1"),
    ("await a\n", 64, "Form 1"),
    ("r 1 1\nthread\n", 64, "Form 1"),
    // A name is posted once.
    ("thread\npost a\npost a\n", 64, "Form 3"),
    ("thread\npost a\nthread\nf\npost a\n", 64, "Form 5"),
];

#[test]
fn first_refusal_decides(rt: HostRuntime) -> Result<(), Fail> {
    for &(bytes, capacity, says) in ORDER {
        assert_eq!(rt;
            told(rt.alloc(), bytes.as_bytes(), capacity)?.as_str(),
            says,
            "{bytes}"
        );
    }
    Ok(())
}

// Counts and numbers.
const NUMBERS: &[(&str, u64, &str)] = &[
    // Counts of 1 to 16.
    ("thread\nw 1 0 1\n", 64, "Limit 2"),
    ("thread\nw 1 17 1\n", 64, "Limit 2"),
    ("thread\nr 1 0\n", 64, "Limit 2"),
    ("thread\nr 1 17\n", 64, "Limit 2"),
    ("thread\nr 1 4294967297\n", 64, "Limit 2"),
    ("thread\nr 1 18446744073709551615\n", 64, "Limit 2"),
    // Numbers.
    ("thread\nw 1 1 18446744073709551616\n", 64, "Form 2"),
    ("thread\nr 18446744073709551616 1\n", 64, "Form 2"),
    ("thread\nr 1 18446744073709551616\n", 64, "Form 2"),
    (
        "thread\nr 100000000000000000000000000000000000000000000000000000000000000001 1\n",
        64,
        "Form 2",
    ),
    ("thread\nr 01 1\n", 64, "Form 2"),
    ("thread\nr 1 01\n", 64, "Form 2"),
    ("thread\nw 1 1 01\n", 64, "Form 2"),
    ("thread\nr 00 1\n", 64, "Form 2"),
    ("thread\nr +1 1\n", 64, "Form 2"),
    ("thread\nr -1 1\n", 64, "Form 2"),
    ("thread\nr 1x 1\n", 64, "Form 2"),
    ("thread\nr 0x1 1\n", 64, "Form 2"),
    ("thread\nr é 1\n", 64, "Form 2"),
    ("thread\nr / 1\n", 64, "Form 2"),
    ("thread\nr : 1\n", 64, "Form 2"),
    ("thread\nw 0 16 00\n", 64, "Form 2"),
];

#[test]
fn numbers_are_judged(rt: HostRuntime) -> Result<(), Fail> {
    for &(bytes, capacity, says) in NUMBERS {
        assert_eq!(rt;
            told(rt.alloc(), bytes.as_bytes(), capacity)?.as_str(),
            says,
            "{bytes}"
        );
    }
    Ok(())
}

// Names, and the words of a line.
const WORDS: &[(&str, u64, &str)] = &[
    // Names of 1 to 16 lower-case letters or digits.
    ("thread\npost abcdefghij0123456\n", 64, "Form 2"),
    ("thread\nawait abcdefghij0123456\n", 64, "Form 2"),
    ("thread\npost \n", 64, "Form 2"),
    ("thread\npost A\n", 64, "Form 2"),
    ("thread\npost a_b\n", 64, "Form 2"),
    ("thread\npost é\n", 64, "Form 2"),
    ("thread\npost `\n", 64, "Form 2"),
    ("thread\npost {\n", 64, "Form 2"),
    ("thread\npost /\n", 64, "Form 2"),
    ("thread\npost :\n", 64, "Form 2"),
    // Words parted by one space, and nothing else.
    ("thread\nr  1 1\n", 64, "Form 2"),
    ("thread\nr 1  1\n", 64, "Form 2"),
    ("thread\nr 1 1 \n", 64, "Form 2"),
    ("thread\n r 1 1\n", 64, "Form 2"),
    ("thread\nr\t1 1\n", 64, "Form 2"),
    ("thread\nf \n", 64, "Form 2"),
    (" \n", 64, "Form 1"),
    ("thread \n", 64, "Form 1"),
    ("thread\r\n", 64, "Form 1"),
    ("thread\nf\r\n", 64, "Form 2"),
    ("thread\n\r\n", 64, "Form 2"),
    ("Thread\n", 64, "Form 1"),
    ("thread\nF\n", 64, "Form 2"),
    ("thread\nW 1 1 1\n", 64, "Form 2"),
    ("thread 1\n", 64, "Form 1"),
    ("thread\nf 1\n", 64, "Form 2"),
    ("thread\nw 1 1\n", 64, "Form 2"),
    ("thread\nr 1 1 1\n", 64, "Form 2"),
    ("thread\nw 1 1 1 1\n", 64, "Form 2"),
    ("thread\npost a b\n", 64, "Form 2"),
    ("thread\npost\n", 64, "Form 2"),
    ("thread\n # \n", 64, "Form 2"),
];

#[test]
fn words_are_judged(rt: HostRuntime) -> Result<(), Fail> {
    for &(bytes, capacity, says) in WORDS {
        assert_eq!(rt;
            told(rt.alloc(), bytes.as_bytes(), capacity)?.as_str(),
            says,
            "{bytes}"
        );
    }
    Ok(())
}

// Bytes that are no text, and what is told of them.
const BYTES: &[(&[u8], &str)] = &[
    (b"#\xff\x80\nthread\n", "[]"),
    (b"thread\n\xff\n", "Form 2"),
    (b"thread\npost \xff\n", "Form 2"),
    (b"thread\nf\0\n", "Form 2"),
];

#[test]
fn any_bytes_are_judged(rt: HostRuntime) -> Result<(), Fail> {
    for &(bytes, says) in BYTES {
        assert_eq!(rt; told(rt.alloc(), bytes, 64)?.as_str(), says);
    }
    Ok(())
}
