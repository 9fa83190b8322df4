//! The layout of a source.
ghost use Rattle.std.specs.Prelude.{◌≡◌, ◌+◌, ◌*◌, ◌≤◌, IfOk, length, true};
ghost use Rattle.task_ast.specs.View.{program_of};
ghost use Rattle.task_check.specs.Placed.{IsPlaced};
ghost use Rattle.cost_bound.specs.Allowance.{IsAllowed};
ghost use Rattle.cost_bound.specs.Machine.{known_of, AreSame};
ghost use Rattle.cost_bound.specs.Summaries.{summaries};
ghost use Rattle.function_locals.specs.Locals.{all_locals};
ghost use Rattle.war_analysis.specs.Plans.{IsPlan};
ghost use Rattle.memory_map.specs.address_space.Limits.{fram_first, program_end};
ghost use Rattle.memory_map.specs.Words.{row_words};
ghost use Rattle.memory_map.specs.Places.{end_of};
ghost use Rattle.privatise.specs.Sizes.{commit_words};
ghost use Rattle.privatise.specs.Layouts.{IsLayout};
ghost use Rattle.privatise.specs.Placing.{AreRegions};

use crate::routines::Functions;
use crate::sizes::{COMMIT, Sizes, sizes_of};
use crate::tasks::place_tasks;
use crate::variables::{Free, address_behind, place_variables};
use cost_bound::{Allow, summaries, uses_events, written_variables};
use function_locals::all_locals;
use memory_map::{FRAM_FIRST, Layout, Logging, ROW_WORDS, Region, Regions, Role, Runtime};
use std::alloc::{AllocError, Global};
use task_ast::CheckedSource;
use task_check::Checked;
use war_analysis::Plan;

// The words that are kept for an entry of the commit list.
const ENTRY: u32 = 3;

fn region_behind(region: Region, words: u32) -> Region
    requires { region.address + 2 * region.words ≤ program_end }
    ensures address { result.address ≡ end_of region }
    ensures words { result.words ≡ words }
{
    Region {
        address: address_behind(region.address, region.words),
        words,
    }
}

// The runtime's words stand at the start of the FRAM, and behind them the regions, one right behind another.
fn regions_of(allow: &Allow, sizes: Sizes) -> Regions
    requires { fram_first + 2 * (row_words + commit_words + 3 * allow.now.list + allow.now.emits + allow.now.versions + sizes.homes + sizes.copies +
        sizes.boot + sizes.code) ≤ program_end }
    ensures { AreRegions allow.now sizes result }
{
    let row = Region {
        address: FRAM_FIRST,
        words: ROW_WORDS,
    };
    let list = region_behind(row, ENTRY * allow.list);
    let emits = region_behind(list, allow.emits);
    let versions = region_behind(emits, allow.versions);
    let homes = region_behind(versions, sizes.homes);
    let copies = region_behind(homes, sizes.copies);
    let boot = region_behind(copies, sizes.boot);
    let commit = region_behind(boot, COMMIT);
    let code = region_behind(commit, sizes.code);
    Regions {
        row: row.address,
        list,
        entries: allow.list,
        emits,
        versions,
        homes,
        copies,
        boot,
        commit,
        code,
    }
}

// The layout of a source whose functions are known.
fn layout_with(
    alloc: Global,
    functions: Functions<'_>,
    source: &CheckedSource,
    allow: &Allow,
    plan: &Plan,
) -> Result<Layout, AllocError>
    requires few { length source.now.shared.items ≤ 256 }
    requires few_functions { length functions.summaries.now ≤ 64 }
    requires few_tasks { length source.now.tasks.items ≤ 64 }
    requires placed { IsPlaced (program_of source.now) }
    requires same { AreSame (known_of functions.summaries.now) (summaries (program_of source.now)) }
    requires locals { functions.locals.now ≡ all_locals (program_of source.now).functions }
    requires allowed { IsAllowed (program_of source.now) allow.now }
    requires planned { IsPlan (program_of source.now) plan.now }
    ensures { IfOk result (IsLayout (program_of source.now) allow.now plan.now) }
{
    let shared = source.shared.as_slice();
    let tasks = source.tasks.as_slice();
    let written = written_variables(functions.summaries, tasks);
    let regions = regions_of(allow, sizes_of(functions.summaries, source, &written));
    let free = Free {
        home: regions.homes.address,
        copy: regions.copies.address,
        version: regions.versions.address,
    };
    let variables = place_variables(alloc, shared, &written, free)?;
    let layouts = place_tasks(
        alloc,
        functions,
        shared,
        variables.as_slice(),
        tasks,
        plan.tasks(),
        regions.code.address,
    )?;
    let runtime = Runtime {
        logging: Logging::Redo,
        role: Role::Alone,
        events: uses_events(source),
    };
    Ok(Layout::new(runtime, regions, variables, layouts))
}

fn layout_of(
    alloc: Global,
    source: &CheckedSource,
    allow: &Allow,
    plan: &Plan,
) -> Result<Layout, AllocError>
    requires few { length source.now.shared.items ≤ 256 }
    requires few_functions { length source.now.functions.items ≤ 64 }
    requires few_tasks { length source.now.tasks.items ≤ 64 }
    requires placed { IsPlaced (program_of source.now) }
    requires allowed { IsAllowed (program_of source.now) allow.now }
    requires planned { IsPlan (program_of source.now) plan.now }
    ensures { IfOk result (IsLayout (program_of source.now) allow.now plan.now) }
{
    let known = summaries(&source.functions);
    let locals = all_locals(&source.functions);
    let functions = Functions {
        summaries: &known,
        locals: &locals,
    };
    layout_with(alloc, functions, source, allow, plan)
}

/// Where the data and the code of a source stand; or no memory is left. The allowance and the plan
/// are those of the source.
///
/// It takes no more than the words of the allowance, from 0x4400 up, but for the last of them, which is the word at 0xFFFE.
pub fn layout(
    alloc: Global,
    checked: &Checked,
    allow: &Allow,
    plan: &Plan,
) -> Result<Layout, AllocError>
    requires allowed { IsAllowed (program_of checked.now.source) allow.now }
    requires planned { IsPlan (program_of checked.now.source) plan.now }
    ensures { IfOk result (IsLayout (program_of checked.now.source) allow.now plan.now) }
{
    let layout = layout_of(alloc, checked.source(), allow, plan)?;
    Ok(layout)
}
