//! Makes the picture of a schedule's run.

ghost use Rattle.std.specs.Prelude.{◌≡◌, ◌++◌, ◌∷◌, [], filter, IfOk, OnOk, Ok};
ghost use Rattle.serf_schedule.specs.Schedule.{parsed_of, schedule_of};
ghost use Rattle.serf_draw.specs.DrawOptions.{is_chosen};
ghost use Rattle.serf_draw.specs.Drawing.{Draws, IsPicture, lanes_from, lost_in, shown_lanes};

use crate::options::DrawOptions;
use crate::picture::{Lane, Packet, Picture, Sender};
use crate::rows::Rows;
use serf_agent::Config;
use serf_schedule::{Schedule, ScheduleError, Watch, Watched, parse_schedule, report_schedule};
use serf_text::Cause;
use serf_wire::Bytes;
use std::alloc::{AllocError, Global};
use thiserror::Error;

/// The reason why no picture of a run could be made.
#[derive(Clone, Copy, Debug, Drop, Error, PartialEq, Eq)]
pub enum DrawError {
    /// The number (counted from 1) of the first faulty line in the schedule, and the cause of the error.
    #[error("line {line} of the schedule is bad: {cause}")]
    BadLine { line: u64, cause: Cause },
    /// The number of the first agent in the options that the schedule doesn't contain, and the number of agents in the
    /// schedule. Agents are numbered from 0.
    #[error("the schedule has no agent number {agent}: agents are numbered from 0, and it has {count}")]
    NoAgent { agent: u64, count: u64 },
    #[error("out of memory")]
    OutOfMemory,
}

/// Returns the senders of the packets in `packets` that no agent received and that were sent by an action that is
/// drawn.
fn lost_of(alloc: Global, packets: &[Packet]) -> Result<Vec<Sender>, AllocError>
    ensures { IfOk result (λ lost. lost.items ≡ lost_in packets.now) }
{
    packets
        .iter()
        .filter(|packet| !packet.is_given && packet.is_shown)
        .map(|packet| packet.sender)
        .collect(alloc)
}

/// If `options` select agent number `agent`, whose settings are `config`, adds the agent's lane.
fn add_lane(
    alloc: Global,
    lanes: &mut Vec<Lane>,
    options: &DrawOptions,
    agent: u64,
    config: &Config,
) -> Result<(), AllocError>
    ensures { OnOk result (lanes.new.items ≡ lanes.old.items
        ++ filter (λ l. is_chosen options.now.agents.items l.agent)
        (lanes_from agent (config.now ∷ []))) }
{
    if options.is_chosen(agent) {
        let name = Bytes::copy_of(alloc, config.name.as_slice())?;
        lanes.push(Lane { agent, name })?;
    }
    Ok(())
}

/// Returns the lanes of the agents that `options` select. `configs` contains the settings of all agents.
fn lanes_of(
    alloc: Global,
    configs: &[Config],
    options: &DrawOptions,
) -> Result<Vec<Lane>, AllocError>
    ensures { IfOk result (λ lanes. lanes.items ≡ shown_lanes options.now configs.now) }
{
    let mut lanes = Vec::new(alloc);
    let mut agent: u64 = 0;
    for config in configs {
        add_lane(alloc, &mut lanes, options, agent, config)?;
        agent += 1;
    }
    Ok(lanes)
}

/// Returns the picture of the run of `schedule`, with the parts that `options` select.
fn picture_of<T: Watch>(
    alloc: Global,
    schedule: Schedule,
    options: &DrawOptions,
    watch: &mut T,
) -> Result<Picture, AllocError>
    ensures { IfOk result (IsPicture options.now (parsed_of schedule)) }
{
    let lanes = lanes_of(alloc, schedule.agents.as_slice(), options)?;
    let all = schedule.actions.len() as u64;
    let reporter = Rows::new(alloc, options);
    let mut watched = Watched {
        reporter,
        watch,
        all,
    };
    report_schedule(alloc, schedule, &mut watched)?;
    let Watched { reporter, .. } = watched;
    let Rows { packets, rows, .. } = reporter;
    let lost = lost_of(alloc, packets.as_slice())?;
    Ok(Picture { lanes, rows, lost })
}

/// Returns the picture of the run of `schedule`, or the error `NoAgent` if `options` name an agent that the schedule
/// doesn't contain.
fn picture_chosen<T: Watch>(
    alloc: Global,
    schedule: Schedule,
    options: &DrawOptions,
    watch: &mut T,
) -> Result<Picture, DrawError>
    ensures { Draws options.now result (Ok (parsed_of schedule)) }
{
    let count = schedule.agents.as_slice().len() as u64;
    if let Some(agent) = options.missing_agent(count) {
        return Err(DrawError::NoAgent { agent, count });
    }
    match picture_of(alloc, schedule, options, watch) {
        Ok(picture) => Ok(picture),
        Err(_) => Err(DrawError::OutOfMemory),
    }
}

/// Returns the picture of the run of the schedule in `text`, with the parts that `options` select.
///
/// The function fails with `BadLine` if and only if a line is faulty, and like the error of [`serf_replay::replay`],
/// this error names the first faulty line. If no line is faulty, the function fails with `NoAgent` if and only if the
/// options name an agent that the schedule doesn't contain, and the error names the first of these agents. The function
/// fails with `OutOfMemory` if memory runs out. The function calls `watch` for each action.
pub fn draw_picture<T: Watch>(
    alloc: Global,
    text: &[u8],
    options: &DrawOptions,
    watch: &mut T,
) -> Result<Picture, DrawError>
    ensures { Draws options.now result (schedule_of text.now) }
{
    match parse_schedule(alloc, text) {
        Ok(schedule) => picture_chosen(alloc, schedule, options, watch),
        Err(ScheduleError::BadLine { line, cause }) => Err(DrawError::BadLine { line, cause }),
        Err(ScheduleError::OutOfMemory) => Err(DrawError::OutOfMemory),
    }
}
