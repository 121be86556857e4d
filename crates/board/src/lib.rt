// The exported functions, for the switch's C code: each is one line over a proved call, with that call's statement, and tells C its result as a number or a struct.
// A slice passes as pointer and length.
#![tactic(auto)]

ghost use Rattle.tables.specs.Calls as Tables;
ghost use Rattle.reading.specs.Calls as Reading;
ghost use Rattle.writing.specs.Calls as Writing;
ghost use Rattle.executive.specs.Calls as Executive;
ghost use Rattle.traces.specs.Calls as Traces;

use executive::{Picked, Ran};
use reading::Told;
use tables::replies::reply_of;
use traces::TraceReply;
use writing::Wrote;

#[unsafe(no_mangle)]
pub extern "C" fn tannoplex_read(text: &[u8], table: &mut [u32]) -> Told
    ensures { Reading.Read text.now table.old result table.new }
{
    Told::from(reading::reading::read(text, table))
}

#[unsafe(no_mangle)]
pub extern "C" fn tannoplex_write(table: &[u32], text: &mut [u8]) -> Wrote
    ensures { Writing.Written table.now text.old result text.new }
{
    Wrote::from(writing::writing::write(table, text))
}

#[unsafe(no_mangle)]
pub extern "C" fn tannoplex_check(table: &[u32]) -> u32
    ensures { Tables.Checked table.now result }
{
    reply_of(tables::checking::check(table))
}

#[unsafe(no_mangle)]
pub extern "C" fn tannoplex_start(table: &[u32], state: &mut [u32]) -> u32
    ensures { Executive.Started table.now state.old result state.new }
{
    reply_of(executive::calls::start(table, state))
}

#[unsafe(no_mangle)]
pub extern "C" fn tannoplex_step(table: &[u32], state: &mut [u32], agent: u32, time: u32) -> u32
    ensures { Executive.Stepped table.now state.old agent time result state.new }
{
    reply_of(executive::calls::step(table, state, agent, time))
}

#[unsafe(no_mangle)]
pub extern "C" fn tannoplex_pick(table: &[u32], state: &[u32]) -> Picked
    ensures { Executive.Picked table.now state.now result.reply result.agent result.time }
{
    Picked::from(executive::calls::pick(table, state))
}

#[unsafe(no_mangle)]
pub extern "C" fn tannoplex_run(table: &[u32], state: &mut [u32], choices: &[u32]) -> Ran
    ensures { Executive.Ran table.now state.old choices.now result.reply result.count state.new }
{
    Ran::from(executive::calls::run(table, state, choices))
}

#[unsafe(no_mangle)]
pub extern "C" fn tannoplex_trace(input: &[u8], out: &mut [u8]) -> TraceReply
    ensures { Traces.WroteTrace input.now out.old result.reply result.length out.new }
{
    traces::trace(input, out)
}
