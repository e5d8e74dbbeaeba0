// The text that an answer asks for: the lines of a report or of a direct fit with its tables, or the line of the refusal.
#![tactic(auto)]

ghost use Rattle.std.specs.Prelude.{◌≤◌, IfOk, length};
ghost use Rattle.writing.specs.Text.{Wrote};
ghost use Rattle.lines.specs.Page.{page_size};
ghost use Rattle.tree_theory.specs.Limits.{max_edges};
ghost use Rattle.answer_lines.specs.Texts.{report_text, direct_text};

use sheet::SheetFit;
use unfitted_sheet::UnfittedFit;
use verdict::{Refusal, Rule};

// The print of a report with its two tables.
pub fn report_text(rule: Rule, fit: &Result<SheetFit, Refusal>, text: &mut [u8]) -> usize
    requires edges_le_max_edges { IfOk fit.now (λ x. x.report.edges ≤ max_edges) }
    requires page_size_in_bounds { page_size ≤ length text.old }
    ensures { Wrote text.old text.new 0 (report_text rule fit.now) result }
{
    match fit {
        Err(refusal) => lines::refused_line(text, 0, u32::from(refusal.reason), refusal.place),
        Ok(sheet) => fit_lines::fit_text(
            text,
            rule,
            sheet.report.strains,
            sheet.report.edges,
            sheet.report.denominator,
            &sheet.numerators,
            &sheet.rounded,
            sheet.report.length,
            sheet.report.f,
            sheet.report.r,
            sheet.report.h,
            sheet.report.mean,
        ),
    }
}

// The print of a direct fit with its three tables.
pub fn direct_text(fit: &Result<UnfittedFit, Refusal>, text: &mut [u8]) -> usize
    requires edges_le_max_edges { IfOk fit.now (λ x. x.edges ≤ max_edges) }
    requires page_size_in_bounds { page_size ≤ length text.old }
    ensures { Wrote text.old text.new 0 (direct_text fit.now) result }
{
    match fit {
        Err(refusal) => lines::refused_line(text, 0, u32::from(refusal.reason), refusal.place),
        Ok(sheet) => fit_lines::resolved_text(
            text,
            sheet.strains,
            sheet.edges,
            &sheet.tops,
            &sheet.bottoms,
            &sheet.rounded,
            sheet.fit.r,
            sheet.fit.h,
        ),
    }
}
