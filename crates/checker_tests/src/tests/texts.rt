//! How programs print, what a fault of a text is called, and which instructions are the same.

use dp_lang::{assemble, is_same, print};
use std::alloc::Global;
use std::test::Fail;

/// Programs as a person writes them, as they print, and how many instructions they have.
static PRINTED: &[(&str, &str, usize)] = &[
    (
        "iflen p0,14,L4\nadj p0,14\ntx p0,r0,L4\nexit\nL4:\nfree p0\nexit\n",
        "iflen p0,14,L4\nadj p0,14\ntx p0,r0,L4\nexit\nL4:\nfree p0\nexit\n",
        6,
    ),
    (
        "tx p0,r0,d\nexit\nd: free p0\nexit\n",
        "tx p0,r0,L2\nexit\nL2:\nfree p0\nexit\n",
        4,
    ),
    (
        "enq p0,0,d\nexit\nd: free p0\nexit\n",
        "enq p0,0,L2\nexit\nL2:\nfree p0\nexit\n",
        4,
    ),
    (
        "alloc p1,0,a\nappend p1,4\nset r1,0x0a0b0c0d\nstore p1,0,4,r1\nclone p2,p0,1,b\nclone p3,p0,1,c\nfree p0\n\
         chain p1,p2\nset r2,1\ntx p1,r2,d\ntx p3,r0,e\nexit\nd: free p1\ne: free p3\nexit\nc: free p2\nb: free p1\n\
         a: free p0\nexit\n",
        "alloc p1,0,L17\nappend p1,4\nset r1,168496141\nstore p1,0,4,r1\nclone p2,p0,1,L16\nclone p3,p0,1,L15\n\
         free p0\nchain p1,p2\nset r2,1\ntx p1,r2,L12\ntx p3,r0,L13\nexit\n\
         L12:\nfree p1\nL13:\nfree p3\nexit\nL15:\nfree p2\nL16:\nfree p1\nL17:\nfree p0\nexit\n",
        19,
    ),
    ("a: jmp a", "L0:\njmp L0\n", 1),
    // each of the 32 forms, with the largest numbers that it has
    (EVERY_FORM, EVERY_FORM, 32),
];

const EVERY_FORM: &str =
    "L0:\nalloc p7,7,L0\nfree p1\nclone p2,p3,0,L31\nprepend p4,65535\nadj p5,0\nappend p6,1\ntrim p7,2\n\
     chain p0,p1\nifhead p2,3,L0\niftail p3,4,L0\niflen p4,5,L0\niflast p5,6,L0\nload r0,p6,65535,1\n\
     store p7,7,2,r1\nloadx r2,p0,r3,8,4\nstorex p1,r4,9,8,r5\nset r6,18446744073709551615\nmov r7,r0\n\
     add r1,r2\nsub r3,10\nand r4,r5\nor r6,18446744073709551615\nxor r7,0\nshl r0,63\nshr r1,0\njmp L31\n\
     jeq r2,r3,L0\njlt r4,1,L0\nlookup r5,3,r6,L0\ntx p2,r7,L0\nenq p3,7,L0\nL31:\nexit\n";

/// Texts of two programs, and whether their first instructions are the same.
static COMPARED: &[(&str, &str, bool)] = &[
    ("exit", "a: exit", true),
    ("store p1,65535,8,r2", "store p1,65535,8,r2", true),
    ("add r1,7", "add r1,0x7", true),
    // another form with the same operands
    ("adj p1,4", "append p1,4", false),
    // the first, a middle and the last operand
    ("store p1,4,8,r2", "store p0,4,8,r2", false),
    ("store p1,4,8,r2", "store p1,5,8,r2", false),
    ("store p1,4,8,r2", "store p1,4,2,r2", false),
    ("store p1,4,8,r2", "store p1,4,8,r3", false),
    // a label, and a register beside a constant
    ("jmp a\na: exit", "jmp a\nexit\na: exit", false),
    ("jmp b\nb: exit", "jmp a\na: exit", true),
    ("add r1,r0", "add r1,0", false),
    // operands in another order, and the largest constant
    (
        "clone p1,p2,0,a\na: exit",
        "clone p2,p1,0,a\na: exit",
        false,
    ),
    (
        "set r1,18446744073709551615",
        "set r1,18446744073709551614",
        false,
    ),
];

// Whether a text is a program with this number of instructions and prints like that.
fn prints(alloc: Global, text: &str, printed: &str, count: usize) -> Result<bool, Fail> {
    let program = assemble(alloc, text.as_bytes())?;
    let shown = print(alloc, &program)?;
    Ok(shown.as_str() == printed && program.instrs().len() == count)
}

// Whether all programs print as they should, and what they print does.
fn all_print(alloc: Global) -> Result<bool, Fail> {
    for (text, printed, count) in PRINTED {
        if !prints(alloc, text, printed, *count)? || !prints(alloc, printed, printed, *count)? {
            return Ok(false);
        }
    }
    Ok(true)
}

// Whether the text of a program of 1,024 instructions prints as it is.
fn longest_prints(alloc: Global) -> Result<bool, Fail> {
    let mut text = String::new(alloc);
    for _ in 0..1022usize {
        text.push_str("set r1,18446744073709551615\n")?;
    }
    text.push_str("free p0\nexit\n")?;
    prints(alloc, text.as_str(), text.as_str(), 1024)
}

// Whether the first instructions of two programs are the same.
fn begin_alike(alloc: Global, text: &str, other: &str) -> Result<bool, Fail> {
    let one = assemble(alloc, text.as_bytes())?;
    let two = assemble(alloc, other.as_bytes())?;
    match (one.instrs().first(), two.instrs().first()) {
        (Some(a), Some(b)) => Ok(is_same(a, b)),
        _ => Ok(false),
    }
}

// Whether all pairs are compared as they should be.
fn all_compare(alloc: Global) -> Result<bool, Fail> {
    for (text, other, want) in COMPARED {
        if begin_alike(alloc, text, other)? != *want {
            return Ok(false);
        }
    }
    Ok(true)
}

// Whether the fault of a text is shown like this.
fn shows(alloc: Global, text: &str, want: &str) -> Result<bool, Fail> {
    match assemble(alloc, text.as_bytes()) {
        Ok(_) => Ok(false),
        Err(error) => Ok(error.to_string(alloc)?.as_str() == want),
    }
}

#[test]
fn texts(rt: HostRuntime) -> Result<(), Fail> {
    let alloc = rt.alloc();
    assert!(&rt; all_print(alloc)? && longest_prints(alloc)?);
    assert!(&rt; all_compare(alloc)? && shows(alloc, "exit\njmp x", "line 2: LabelUnknown")?);
    Ok(())
}
