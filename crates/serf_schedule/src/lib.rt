//! Reads, writes and runs schedules, and writes the traces of their runs. If a schedule is written and then read, the
//! result is the same schedule.
#![tactic(auto)]

mod command;
mod laws;
mod line;
mod modes;
mod parse;
mod reporting;
mod run;
mod sayable;
mod schedule;
mod show;
mod written_lines;
mod written_words;

pub use command::{Bare, Command, Verb, command_in, verb_word};
pub use laws::{
    comments_skipped, lines_grow, lines_stay, sized_schedules, text_reads_back, told_schedules,
};
pub use modes::sink_call;
pub use parse::{ReplayError, ScheduleError, error_at, parse_schedule, read_schedule_line};
pub use reporting::report_input;
pub use run::{Run, Unwatched, Watch, Watched, report_schedule};
pub use sayable::{has_byte_name, is_sayable};
pub use schedule::Schedule;
pub use show::{TraceText, answer_words, show_trace, write_action, write_answer};
pub use written_lines::{
    know_read_back, write_act_words, write_action_line, write_agent_line, write_config_words,
    write_schedule,
};
pub use written_words::{Word, write_line};
