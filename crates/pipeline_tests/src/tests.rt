//! Cases with answers that were worked out by hand.

ghost use Rattle.std.specs.Prelude.{◌≡◌, IfOk, length};

use dp_captures::{Guarded, Progress, Watched};
use dp_counts::{Counts, Totals};
use dp_engine::{InputState, PortReport, Report};
use dp_load::{How, Listed, NamedBytes, Pipeline, SingleFiles, load, load_single};
use dp_model::Entry;
use dp_pcap::{Buffered, OfBufReader, OfBufWriter, OfRead, OfWrite};
use dp_runs::run_line;
use dp_script::mem_line;
use dp_sources::{ONE_REGION, one_env};
use dp_verdict::{check_line, infer_line, load_line};
use std::alloc::{AllocError, Global};
use std::io::BufReader;
use std::test::Fail;

/// A pipeline of a table, a ring and a port, which sends back what it gets.
const TEXT: &[u8] = b"region = 65536
[[pool]]
count = 8
cache = 0
room = 2176
[[table]]
rules = 4
groups = 1
routes = []
[[ring]]
count = 2
share = 0
head = 0
tail = 0
first = 0
last = 0
segs = 1
node = \"back\"
[[port]]
pool = 0
segs = 1
queue = 4
node = \"back\"
in = \"in\"
out = \"out\"
";

const FILES: Listed<'static> = Listed {
    files: &[NamedBytes {
        name: "back",
        bytes: b"tx p0,r0,d\nexit\nd: free p0\nexit\n",
    }],
};

/// A capture of two records.
const CAPTURE: &[u8] = b"\xd4\xc3\xb2\xa1\x02\0\x04\0\0\0\0\0\0\0\0\0\0\0\x04\0\x01\0\0\0\
    \x01\0\0\0\x02\0\0\0\x04\0\0\0\x04\0\0\0\x0a\0\0\x01\
    \x01\0\0\0\x02\0\0\0\x02\0\0\0\x02\0\0\0\x0a\0";

/// The report of a run.
const REPORT: &str =
    "port 0 received 2 nobuf 0 oversize 0 sent 2 input whole\nring 0 left 0\npool 0 free 8 of 8\ncalls 2 refused 0\n";

/// Ports of which one has read more records than a number of 64 bits holds.
const PORTS: &[PortReport] = &[
    PortReport {
        received: 4,
        nobuf: 1,
        oversize: 2,
        sent: 0,
        state: InputState::Whole,
    },
    PortReport {
        received: u64::MAX,
        nobuf: 1,
        oversize: 2,
        sent: 0,
        state: InputState::Whole,
    },
];

const IN_ALL: &str =
    "progress: port 0: 7 records read in all\nprogress: port 1: 18446744073709551618 records read in all\n";

/// Labels and nodes that no program has.
static NOWHERE: &[(Entry, usize)] = &[(Entry::Port(0), 1024), (Entry::Ring(8), 0)];

fn loaded(alloc: Global) -> Result<Pipeline, Fail>
    ensures { IfOk result (λ pipeline. length pipeline.env.ports ≡ 1) }
{
    let mut files = FILES;
    let pipeline = load(alloc, TEXT, &mut files, How::Given)?;
    if pipeline.ports() != 1 {
        return Err(Fail::from("ports"));
    }
    Ok(pipeline)
}

// How many records the first port received and sent.
fn numbers(report: &Report) -> Option<(u64, u64)> {
    let port = report.ports.first()?;
    Some((port.received, port.sent))
}

// Runs the pipeline, and returns these numbers.
fn ran(alloc: Global, pipeline: Pipeline) -> Option<(u64, u64)>
    requires { length pipeline.env.ports ≡ 1 }
{
    let (mut ins, mut outs) = ([OfRead::new(CAPTURE)], [OfWrite::new(Vec::new(alloc))]);
    let (ins, outs) = (ins.as_mut_slice(), outs.as_mut_slice());
    match dp_pipe::run(alloc, pipeline, ins, outs, Vec::new(alloc)) {
        Ok(report) => numbers(&report),
        Err(_) => None,
    }
}

#[test]
fn a_run_returns_its_report(rt: HostRuntime) -> Result<(), Fail> {
    let pipeline = loaded(rt.alloc())?;
    assert_eq!(&rt; (pipeline.rings(), pipeline.tables().len()), (1, 1));
    assert_eq!(&rt; ran(rt.alloc(), pipeline), Some((2, 2)));
    Ok(())
}

type Input = OfBufReader<Watched<&'static [u8]>>;

type Output = OfBufWriter<Guarded<Vec<u8>>>;

fn input(alloc: Global) -> Result<Input, Fail> {
    let watched = Watched::new(CAPTURE, Progress::new(None, 0), "in");
    Ok(OfBufReader::new(BufReader::with_capacity(alloc, 64, watched)?))
}

fn output(alloc: Global) -> Result<Output, Fail> {
    let guarded = Guarded::new(Vec::new(alloc), "out");
    Ok(OfBufWriter::new(Buffered::with_capacity(alloc, 65_536, guarded)?))
}

// What the file of the first output took.
fn taken(outs: &[Output]) -> &[u8] {
    match outs.first() {
        Some(out) => out.get_ref().get_ref().get_ref().as_slice(),
        None => &[],
    }
}

// Whether a run of the pipeline sends the capture back, and prints the report alone.
fn prints(alloc: Global, pipeline: Pipeline, input: Input, output: Output) -> bool
    requires { length pipeline.env.ports ≡ 1 }
{
    let (mut ins, mut outs) = ([input], [output]);
    let (ins, outs) = (ins.as_mut_slice(), outs.as_mut_slice());
    let (mut out, mut err) = (Vec::new(alloc), Vec::new(alloc));
    let pattern = Vec::new(alloc);
    let status = run_line(alloc, pipeline, ins, outs, pattern, &mut out, &mut err);
    status == 0 && out.as_slice() == REPORT.as_bytes() && err.is_empty() && taken(outs) == CAPTURE
}

#[test]
fn a_run_prints_its_report(rt: HostRuntime) -> Result<(), Fail> {
    let alloc = rt.alloc();
    let (pipeline, input, output) = (loaded(alloc)?, input(alloc)?, output(alloc)?);
    assert!(&rt; prints(alloc, pipeline, input, output));
    Ok(())
}

/// A program that frees each packet.
const FREES: Listed<'static> = Listed {
    files: &[NamedBytes {
        name: "back",
        bytes: b"free p0\nexit\n",
    }],
};

/// A program that keeps each packet, so no certificate is right.
const KEEPS: Listed<'static> = Listed {
    files: &[NamedBytes {
        name: "back",
        bytes: b"exit\n",
    }],
};

const NO_FILES: Listed<'static> = Listed { files: &[] };

/// The certificate of [`FREES`] on the port.
const CERT: &str = "dpv-cert 1\n\
    010102008000000000000001000000000000000000000000000000000000000000000000000000000000000000000000000000\
    000000000000000000000000000000000000000000000000000000000000000000000000000000000000000000000000000000\
    000000000000000000000000000000000000000000000000000000000000000000000000000000000000000000000000000000\n\
    010000000000000000000000000000000000000000000000000000000000000000000000000000000000000000000000000000\
    000000000000000000000000000000000000000000000000000000000000000000000000000000000000000000000000000000\
    000000000000000000000000000000000000000000000000000000000000000000000000000000000000000000000000000000\n";

/// Files for the pipeline, and with which status and texts it is not loaded.
static UNLOADED: &[(Listed<'static>, u8, &str, &str)] = &[
    (KEEPS, 1, "port 0 not inferred at 0 by J10\n", ""),
    (NO_FILES, 3, "", "fault: pipeline 5 File port 0\n"),
];

/// Heap scripts, with what they print and their statuses.
static SCRIPTS: &[(&[u8], u8, &str, &str)] = &[
    (
        b"region 4096\nmalloc 100 0\n",
        0,
        "1 data 3968 element 3904 + 192\n",
        "",
    ),
    (
        b"region 4096\nmalloc 100\n",
        3,
        "",
        "fault: line 2 bad command\n",
    ),
];

// Whether these files give no pipeline, with this status and these texts.
fn is_unloaded(alloc: Global, given: Listed<'_>, status: u8, out: &str, err: &str) -> bool {
    let (mut files, mut printed, mut reported) = (given, Vec::new(alloc), Vec::new(alloc));
    let (to, aside) = (&mut printed, &mut reported);
    let answer = load_line(alloc, TEXT, &mut files, How::Given, to, aside);
    matches!(answer, Err(it) if it == status)
        && printed.as_slice() == out.as_bytes()
        && reported.as_slice() == err.as_bytes()
}

// Whether a script ends with this status and these texts.
fn is_said(alloc: Global, script: &[u8], status: u8, out: &str, err: &str) -> bool {
    let (mut printed, mut reported) = (Vec::new(alloc), Vec::new(alloc));
    mem_line(alloc, script, &mut printed, &mut reported) == status
        && printed.as_slice() == out.as_bytes()
        && reported.as_slice() == err.as_bytes()
}

// The first row of files that does not hold.
fn first_loaded(alloc: Global) -> Option<usize> {
    for (k, (files, status, out, err)) in UNLOADED.iter().enumerate() {
        if !is_unloaded(alloc, *files, *status, out, err) {
            return Some(k);
        }
    }
    None
}

// The first script that does not hold.
fn first_unsaid(alloc: Global) -> Option<usize> {
    for (k, (script, status, out, err)) in SCRIPTS.iter().enumerate() {
        if !is_said(alloc, script, *status, out, err) {
            return Some(k);
        }
    }
    None
}

// Whether the nodes of a pipeline are printed as accepted, the certificate of its port is printed, and that it has no second ring.
fn are_said(alloc: Global, pipeline: &Pipeline) -> bool {
    let (mut out, mut err) = (Vec::new(alloc), Vec::new(alloc));
    check_line(pipeline, &mut out, &mut err) == 0
        && out.as_slice() == "port 0 accepted\nring 0 accepted\n".as_bytes()
        && infer_line(
            alloc,
            pipeline,
            Entry::Port(0),
            &mut err,
            &mut Vec::new(alloc),
        ) == 0
        && err.as_slice() == CERT.as_bytes()
        && infer_line(
            alloc,
            pipeline,
            Entry::Ring(1),
            &mut Vec::new(alloc),
            &mut out,
        ) == 2
        && out.ends_with(b"accepted\nerror: the pipeline has no ring 1\n")
}

#[test]
fn commands_over_two_writers(rt: HostRuntime) -> Result<(), Fail> {
    let (alloc, mut files) = (rt.alloc(), FREES);
    assert_eq!(&rt; (first_loaded(alloc), first_unsaid(alloc)), (None, None));
    let (mut out, mut err) = (Vec::new(alloc), Vec::new(alloc));
    let loaded = load_line(alloc, TEXT, &mut files, How::Inferred, &mut out, &mut err);
    let is_right = matches!(&loaded, Ok(pipeline) if are_said(alloc, pipeline));
    assert!(&rt; is_right && out.is_empty() && err.is_empty());
    Ok(())
}

#[test]
fn the_pipeline_of_one_port(rt: HostRuntime) -> Result<(), Fail> {
    let names = SingleFiles {
        program: "back",
        cert: None,
        input: "in",
        output: "out",
    };
    let mut files = FILES;
    let pipeline = load_single(rt.alloc(), one_env(), ONE_REGION, names, &mut files)?;
    assert!(&rt;
        pipeline.region() == 262_144 && pipeline.ports() == 1 && *pipeline.env() == one_env()
    );
    Ok(())
}

#[test]
fn totals(rt: HostRuntime) -> Result<(), AllocError> {
    let text = format!(in rt.alloc(); "{}", Totals(PORTS))?;
    assert_eq!(&rt; text.as_str(), IN_ALL);
    Ok(())
}

// The first of these labels, from 0, with another count than none.
fn first_step(counts: &Counts) -> Option<usize> {
    for (k, (node, label)) in NOWHERE.iter().enumerate() {
        let step = counts.step(*node, *label);
        if (step.ran, step.taken, step.cut) != (0, 0, 0) {
            return Some(k);
        }
    }
    None
}

#[test]
fn counts_of_nothing(rt: HostRuntime) -> Result<(), AllocError> {
    assert_eq!(&rt; first_step(&Counts::new(rt.alloc())?), None);
    Ok(())
}
