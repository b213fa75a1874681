//! Writes the whole HTML page.

ghost use Rattle.std.specs.Prelude.{◌≡◌, ◌++◌, OnOk, codes};
ghost use Rattle.serf_timeline.specs.Page.{elements_text, element_text, ending_text, entry_start, head_text, logs_element, logs_part, page_text, run_element, run_part, script_text, still_text, tone_text, tone_word as word_of, verdict_text};

use crate::escape::{write_data, write_html};
use crate::frame::{DATA, ENDING, HEADING, OPENING, SCRIPT, STILL, TONE, VERDICT};
use crate::markup::{ENTRY, ENTRY_CLASS};
use crate::script_1::SCRIPT_1;
use crate::script_2::SCRIPT_2;
use crate::still::{Logs, Run, write_logs, write_pre, write_run};
use std::alloc::AllocError;

/// The contents of a page, which shows which handlers ran according to their logs, or the run of a schedule, or both.
#[derive(Clone, Copy)]
pub struct Page<'a> {
    pub title: &'a [u8],
    /// Whether the page shows the verdict as bad, for example because a promise is broken.
    pub is_broken: bool,
    /// The verdict that the page shows without the script. The verdict may contain any number of lines.
    pub verdict: &'a [u8],
    pub logs: Option<Logs<'a>>,
    pub run: Option<Run<'a>>,
}

/// Returns the class that the page's markup uses for a verdict.
fn tone_word(is_broken: bool) -> &'static [u8]
    ensures { result.now ≡ word_of is_broken }
{
    if is_broken { b"bad" } else { b"good" }
}

/// Appends the beginning of the page, up to and including the text of its heading.
#[tactic(auto, unfolding(crate::specs::Page::head_text))]
fn write_head(out: &mut Vec<u8>, title: &[u8]) -> Result<(), AllocError>
    ensures { OnOk result (out.new.items ≡ out.old.items ++ head_text title.now) }
{
    out.extend_from_slice(OPENING)?;
    write_html(out, title)?;
    out.extend_from_slice(HEADING)?;
    write_html(out, title)
}

/// Appends the part of the page that begins after the heading and ends with the opening tag of the verdict's list.
#[tactic(auto, unfolding(crate::specs::Page::tone_text))]
fn write_tone(out: &mut Vec<u8>, is_broken: bool) -> Result<(), AllocError>
    ensures { OnOk result (out.new.items ≡ out.old.items ++ tone_text is_broken) }
{
    out.extend_from_slice(TONE)?;
    out.extend_from_slice(tone_word(is_broken))?;
    out.extend_from_slice(VERDICT)
}

/// Appends the start of the verdict's only list entry.
#[tactic(auto, unfolding(crate::specs::Page::entry_start))]
fn write_entry_start(out: &mut Vec<u8>, is_broken: bool) -> Result<(), AllocError>
    ensures { OnOk result (out.new.items ≡ out.old.items ++ entry_start is_broken) }
{
    out.extend_from_slice(ENTRY)?;
    out.extend_from_slice(tone_word(is_broken))?;
    out.extend_from_slice(ENTRY_CLASS)
}

/// Appends the part of the page from the end of the heading to the end of the verdict.
#[tactic(auto, unfolding(crate::specs::Page::verdict_text))]
fn write_verdict(out: &mut Vec<u8>, is_broken: bool, verdict: &[u8]) -> Result<(), AllocError>
    ensures { OnOk result (out.new.items ≡ out.old.items ++ verdict_text is_broken verdict.now) }
{
    write_tone(out, is_broken)?;
    write_entry_start(out, is_broken)?;
    write_pre(out, verdict)?;
    out.extend_from_slice(b"</li>\n")
}

/// If there are logs, appends the part about logs that the page shows without the script.
fn write_logs_part(out: &mut Vec<u8>, logs: &Option<Logs>) -> Result<(), AllocError>
    ensures { OnOk result (out.new.items ≡ out.old.items ++ logs_part logs.now) }
{
    match logs {
        Some(logs) => write_logs(out, logs),
        None => Ok(()),
    }
}

/// If there is a schedule, appends the part about the schedule that the page shows without the script.
fn write_run_part(out: &mut Vec<u8>, run: &Option<Run>) -> Result<(), AllocError>
    ensures { OnOk result (out.new.items ≡ out.old.items ++ run_part run.now) }
{
    match run {
        Some(run) => write_run(out, run),
        None => Ok(()),
    }
}

/// Appends everything that the page shows without the script.
#[tactic(auto, unfolding(crate::specs::Page::still_text))]
fn write_still(out: &mut Vec<u8>, page: &Page) -> Result<(), AllocError>
    ensures { OnOk result (out.new.items ≡ out.old.items ++ still_text page.now) }
{
    out.extend_from_slice(STILL)?;
    write_logs_part(out, &page.logs)?;
    write_run_part(out, &page.run)
}

/// Appends the element `name`, which contains the objects that the script shows.
#[tactic(auto, unfolding(crate::specs::Page::element_text))]
fn write_element(out: &mut Vec<u8>, name: &[u8], objects: &[u8]) -> Result<(), AllocError>
    ensures { OnOk result (out.new.items ≡ out.old.items ++ element_text name.now objects.now) }
{
    out.extend_from_slice(b"<script type=\"application/json\" id=\"")?;
    out.extend_from_slice(name)?;
    out.extend_from_slice(b"\">\n")?;
    write_data(out, objects)?;
    out.extend_from_slice(b"</script>\n")
}

/// If there are logs, appends the element that contains the objects about logs.
fn write_logs_element(out: &mut Vec<u8>, logs: &Option<Logs>) -> Result<(), AllocError>
    ensures { OnOk result (out.new.items ≡ out.old.items ++ logs_element logs.now) }
{
    match logs {
        Some(logs) => write_element(out, b"log-data", logs.objects),
        None => Ok(()),
    }
}

/// If there is a run of a schedule, appends the element that contains the objects about this run.
fn write_run_element(out: &mut Vec<u8>, run: &Option<Run>) -> Result<(), AllocError>
    ensures { OnOk result (out.new.items ≡ out.old.items ++ run_element run.now) }
{
    match run {
        Some(run) => write_element(out, b"run-data", run.objects),
        None => Ok(()),
    }
}

/// Appends the elements that contain the objects for the script.
#[tactic(auto, unfolding(crate::specs::Page::elements_text))]
fn write_elements(out: &mut Vec<u8>, page: &Page) -> Result<(), AllocError>
    ensures { OnOk result (out.new.items ≡ out.old.items ++ elements_text page.now) }
{
    out.extend_from_slice(DATA)?;
    write_logs_element(out, &page.logs)?;
    write_run_element(out, &page.run)
}

/// Appends the script.
#[tactic(auto, unfolding(crate::specs::Page::script_text))]
fn write_script(out: &mut Vec<u8>) -> Result<(), AllocError>
    ensures { OnOk result (out.new.items ≡ out.old.items ++ script_text) }
{
    out.extend_from_slice(SCRIPT_1)?;
    out.extend_from_slice(SCRIPT_2)
}

/// Appends the script and the end of the page.
#[tactic(auto, unfolding(crate::specs::Page::ending_text))]
fn write_ending(out: &mut Vec<u8>) -> Result<(), AllocError>
    ensures { OnOk result (out.new.items ≡ out.old.items ++ ending_text) }
{
    out.extend_from_slice(SCRIPT)?;
    write_script(out)?;
    out.extend_from_slice(ENDING)
}

/// Appends a page as the text of an HTML file. If memory runs out (`AllocError`), only a prefix of the page may have
/// been appended to `out`.
///
/// The files in `examples/timeline` contain the parts of the page that don't depend on `page`. Every text in `page` is
/// escaped for the place in which it appears, and [`crate::escape_laws`] states what the escaping ensures.
pub fn write_page(out: &mut Vec<u8>, page: &Page) -> Result<(), AllocError>
    ensures { OnOk result (out.new.items ≡ out.old.items ++ page_text page.now) }
{
    write_head(out, page.title)?;
    write_verdict(out, page.is_broken, page.verdict)?;
    write_still(out, page)?;
    write_elements(out, page)?;
    write_ending(out)
}
