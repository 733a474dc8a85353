//! The counts of a run as facts of a document.

use crate::counting::Counting;
use crate::counts::StepCounts;
use crate::source::NodeSource;
use dp_console::{Document, Item};
use dp_load::NodeName;

impl Counting<'_> {
    /// Adds the lines of a program. One with an instruction has its counts, too.
    fn write_lines(&self, source: &NodeSource<'_>, to: &mut Document) {
        for line in source.lines.as_slice() {
            to.begin_object("");
            if let Some(step) = line.step {
                let StepCounts { ran, taken, cut } = self.counts.step(source.node, step.label);
                to.items(&[
                    ("cut", Item::Number(cut)),
                    ("ran", Item::Number(ran)),
                    ("taken", Item::Number(taken)),
                ]);
            }
            let text = str::from_utf8(line.text).unwrap_or("");
            to.item("text", Item::Text(text));
            to.end_object();
        }
    }

    /// Adds to a document, as its member `nodes`, the programs of a run, each with its file, its lines and their counts.
    pub fn write(&self, to: &mut Document) {
        to.begin_list("nodes");
        for source in self.sources.as_slice() {
            to.begin_object("");
            to.item("file", Item::Text(source.name));
            to.begin_list("lines");
            self.write_lines(source, to);
            to.end_list();
            to.shown("node", NodeName(source.node));
            to.end_object();
        }
        to.end_list();
    }
}
