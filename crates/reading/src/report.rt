// Reports: the emit functions.
ghost use Rattle.reading.specs.Leaves.{Emits};
ghost use Rattle.literals.specs.Spelling.{span};

use crate::Parser;
use words::{REPORT_WIDTH, Refusal, Report};

// A report, where there is room for it; nodes and values stay as they are, also where there is none.
pub fn emit(p: &mut Parser, kind: u32, detail: u32, start: u32, end: u32)
    ensures { Emits kind detail (span start end) p.old p.new }
{
    if p.is_refused() {
        return;
    }
    let n = p.state.reports;
    if p.reports.len() / REPORT_WIDTH <= n {
        return p.refuse(Refusal::ReportsDontFit);
    }
    let w = words::report_words(Report {
        kind,
        detail,
        start,
        end,
    });
    let at = REPORT_WIDTH * n;
    p.reports[at] = w[0];
    p.reports[at + 1] = w[1];
    p.reports[at + 2] = w[2];
    p.state.reports = n + 1;
}
