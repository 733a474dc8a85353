//! What a command found: the verdict on each node, as text and as a document.

ghost use Rattle.std.specs.Prelude.{◌≡◌, false, IfSome, None, Some};
ghost use Rattle.std.specs.List.{list_any};
ghost use Rattle.dp_console.specs.Replies.{Says};
ghost use Rattle.dp_verdict.specs.Reports.{findings_of, is_refused, status_of, texts_of};
ghost use Rattle.dp_verdict.specs.Verdicts.{alone, finding_text, verdict_word};
ghost use Rattle.dp_sources.specs.Faults as faults;

use crate::reasons::write_reason;
use dp_check::Reason;
use dp_console::{DONE, Document, Item, REFUSED, Reply, Text, USAGE};
use dp_load::NodeName;
use dp_model::Entry;
use dp_sources::Fault;
use std::alloc::Global;
use std::fmt;

/// Why a program is refused.
#[derive(Drop)]
pub struct Why<'a> {
    pub file: &'a str,
    /// The program's text, which has the line.
    pub text: String,
    /// The maximum number of segments of a packet, if its node is a port.
    pub segs: Option<u32>,
    pub reason: Reason,
}

/// Where a program is refused, and by which rule.
#[derive(Clone, Copy)]
pub struct RefusedAt {
    /// Whether a certificate was given; else one was inferred.
    pub given: bool,
    pub label: u16,
    pub rule: u8,
}

/// The verdict on a node's program.
#[derive(Clone, Copy)]
pub struct Verdict {
    pub node: Entry,
    pub refused: Option<RefusedAt>,
}

/// The verdict on a node's program, with the reason if it is refused and that is known.
#[derive(Drop)]
pub struct Finding<'a> {
    pub verdict: Verdict,
    pub why: Option<Why<'a>>,
}

/// The verdict on a refused program, in a word or two.
fn verdict_word(given: bool) -> &'static str
    ensures { result.now ≡ verdict_word given }
{
    if given { "refused" } else { "not inferred" }
}

/// The verdict as a line, without its newline.
impl fmt::Display for Verdict {
    ghost use Rattle.std.specs.Prelude.{Some};
    ghost use Rattle.dp_verdict.specs.Verdicts.{verdict_text};

    ghost output = { λ verdict. Some (verdict_text verdict) };

    fn fmt<W: fmt::Write>(&self, f: &mut fmt::Formatter<W>) -> fmt::Result {
        let node = NodeName(self.node);
        match self.refused {
            None => write!(f, "{node} accepted"),
            Some(RefusedAt { given, label, rule }) => {
                let verdict = verdict_word(given);
                write!(f, "{node} {verdict} at {label} by J{rule}")
            }
        }
    }
}

impl<'a> Finding<'a> {
    /// A verdict alone.
    pub fn plain(node: Entry, refused: Option<RefusedAt>) -> Finding<'a>
        ensures { result ≡ alone (record { node = node; refused = refused }) }
    {
        let verdict = Verdict { node, refused };
        Finding { verdict, why: None }
    }

    /// Writes its members.
    fn write(&self, to: &mut Document) {
        to.shown("node", NodeName(self.verdict.node));
        if let Some(RefusedAt { given, label, rule }) = self.verdict.refused {
            to.object(
                "refused",
                &[
                    ("given", Item::Bool(given)),
                    ("label", Item::Number(u64::from(label))),
                    ("rule", Item::Number(u64::from(rule))),
                ],
            );
        }
        if let Some(why) = &self.why {
            why.write(to);
        }
    }

    /// Says it as a document of this name.
    pub fn say_view(&self, alloc: Global, name: &str, out: &mut Text)
        ensures { Says out.old out.new None }
    {
        let mut document = Document::new(alloc);
        document.begin_object("");
        document.item("view", Item::Text(name));
        self.write(&mut document);
        document.end_object();
        let mut line = Text::new(alloc);
        document.say_to(&mut line);
        out.has_failed |= line.has_failed;
        out.say(line.words());
    }

    /// Says the line of its verdict, then the reason as a document, if that is known.
    fn say(&self, alloc: Global, out: &mut Text)
        ensures { Says out.old out.new (finding_text self.now) }
    {
        let verdict = self.verdict;
        out.say(format_args!("{verdict}\n"));
        if self.why.is_some() {
            self.say_view(alloc, "refusal", out);
        }
    }
}

impl Why<'_> {
    /// Writes it.
    fn write(&self, to: &mut Document) {
        to.begin_object("why");
        to.item("file", Item::Text(self.file));
        write_reason(self.reason, to);
        to.item(
            "segs",
            match self.segs {
                Some(segs) => Item::Number(u64::from(segs)),
                None => Item::Null,
            },
        );
        to.item("text", Item::Text(self.text.as_str()));
        to.end_object();
    }
}

/// What a command found.
#[derive(Drop)]
pub struct Report<'a> {
    /// The findings; none if the command ended before the first node.
    pub nodes: Option<Vec<Finding<'a>>>,
    /// What ended the command early.
    pub fault: Option<Fault<'a>>,
}

impl<'a> Report<'a> {
    /// The report of a fault that came before the first node.
    pub fn of_fault(fault: Fault<'a>) -> Report<'a>
        ensures { result.fault ≡ Some fault.entry }
    {
        let fault = Some(fault);
        Report { nodes: None, fault }
    }

    /// The verdict on each node, in the order of the nodes.
    pub fn findings(&self) -> &[Finding<'a>]
        ensures { result.now ≡ findings_of self.now }
    {
        match &self.nodes {
            Some(nodes) => nodes.as_slice(),
            None => &[],
        }
    }

    /// The exit status: that of the fault; else 1 if a program is refused.
    pub fn status(&self) -> u8
        ensures { result ≡ status_of self.now }
    {
        match self.fault {
            Some(fault) => fault.status(),
            None if has_refused(self.findings()) => REFUSED,
            None => DONE,
        }
    }

    /// Writes the document. If memory ran out, it says only that.
    fn write(&self, to: &mut Document) {
        to.begin_object("");
        to.item("view", Item::Text("report"));
        if let Some(fault) = self.fault {
            to.begin_object("fault");
            to.item("status", Item::Number(u64::from(fault.status())));
            to.shown("text", fault);
            to.end_object();
        }
        if self.nodes.is_some() && !matches!(self.fault, Some(Fault::Memory)) {
            to.begin_list("nodes");
            for finding in self.findings() {
                to.begin_object("");
                finding.write(to);
                to.end_object();
            }
            to.end_list();
        }
        to.end_object();
    }
}

/// Whether a program is refused.
fn has_refused(findings: &[Finding<'_>]) -> bool
    ensures { result ≡ list_any is_refused findings.now }
{
    findings
        .iter()
        .any(|finding| finding.verdict.refused.is_some())
}

/// Says findings as text.
#[tactic(auto, using(crate::proofs::Saying::says_nothing, crate::proofs::Saying::says_both))]
fn say_text(alloc: Global, findings: &[Finding<'_>], out: &mut Text)
    ensures { Says out.old out.new (texts_of findings.now) }
{
    if let [first, later @ ..] = findings {
        first.say(alloc, out);
        say_text(alloc, later, out);
    }
}

/// What a report says, and its status.
pub fn reply_of(alloc: Global, report: &Report<'_>, is_json: bool) -> Reply
    ensures status { result.status ≡ status_of report.now }
    ensures text { is_json ≡ false → result.out.has_failed ≡ false → IfSome (texts_of (findings_of report.now)) (λ text. result.out.bytes.items ≡ text) }
{
    let mut out = Text::new(alloc);
    if is_json {
        let mut document = Document::new(alloc);
        report.write(&mut document);
        document.say_to(&mut out);
    } else {
        say_text(alloc, report.findings(), &mut out);
    }
    let mut err = Text::new(alloc);
    if let Some(fault) = report.fault {
        err.say(format_args!("{fault}\n"));
    }
    Reply {
        status: report.status(),
        out,
        err,
        is_json,
    }
}

/// What is said of a fault that ended a command before the first node.
#[tactic(auto, using(crate::proofs::ZeroStatus::fault_not_zero))]
pub fn failed(alloc: Global, fault: Fault<'_>, is_json: bool) -> Reply
    ensures status { result.status ≡ faults.status_of fault.entry }
    ensures not_done { result.status ≡ 0 → ⊥ }
{
    reply_of(alloc, &Report::of_fault(fault), is_json)
}

/// What is said if there is no node with this entry.
pub fn no_node(alloc: Global, node: Entry) -> Reply
    ensures { result.status ≡ USAGE }
{
    let mut reply = Reply::new(alloc);
    reply.status = USAGE;
    let name = NodeName(node);
    reply
        .err
        .say(format_args!("error: the pipeline has no {name}\n"));
    reply
}
