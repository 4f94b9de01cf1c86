//! The sizes and the numbers in the first lines of a save file.
ghost use Rattle.std.specs.Prelude.{◌≡◌, ◌<◌, ◌≤◌, true, IfOk, IfSome, Ok};
ghost use Rattle.sn_base.specs.Config.{config_fits};
ghost use Rattle.sn_saved.specs.Saved.{marks_fit};
ghost use Rattle.save_text.specs.Words.{config_by, config_of, marks_by, marks_of};

use crate::words::{four_numbers, three_numbers};
use route_plan::Dead;
use sn_base::Config;
use sn_saved::Marks;
use sn_text::{Fault, rest_after};

/// How many events may have been applied.
const MOST_APPLIED: u64 = 3_000_000_000;

/// The sizes of these numbers, where they lie in their ranges.
fn config_by(numbers: Option<(u64, (u64, (u64, u64)))>) -> Result<Config, Fault>
    ensures same { result ≡ config_by numbers }
    ensures fits { IfOk result (λ config. config_fits config ≡ true) }
{
    let Some((nodes, (sets, (ways, log)))) = numbers else {
        return Err(Fault::NotOfForm);
    };
    if nodes > 16 || sets > 256 || ways > 16 || log > 4096 {
        return Err(Fault::NotThere);
    }
    let config = Config {
        nodes: nodes as u8,
        sets: sets as u16,
        ways: ways as u8,
        log: log as u16,
    };
    if !config.fits() {
        return Err(Fault::NotThere);
    }
    Ok(config)
}

/// The sizes that a line says.
#[tactic(auto, unfolding(crate::specs::Words::config_of))]
pub fn config_in(line: &[u8]) -> Result<Config, Fault>
    ensures same { result ≡ config_of line.now }
    ensures fits { IfOk result (λ config. config_fits config ≡ true) }
{
    match rest_after(line, "config ") {
        Some(numbers) => config_by(four_numbers(numbers)),
        None => Err(Fault::NotOfForm),
    }
}

/// The numbers of a recovery point that some run could have come to.
fn marks_by(numbers: Option<(u64, (u64, u64))>) -> Result<Marks, Fault>
    ensures same { result ≡ marks_by numbers }
    ensures fit { IfOk result (λ m. marks_fit m ≡ true) }
{
    let Some((point, (next_id, applied))) = numbers else {
        return Err(Fault::NotOfForm);
    };
    if applied > MOST_APPLIED || point > applied || next_id == 0 || next_id > 17 * applied + 1 {
        return Err(Fault::NotThere);
    }
    Ok(Marks {
        point: point as u32,
        next_id,
        applied: applied as u32,
        dead: Dead::none(),
    })
}

/// The numbers that a line says.
#[tactic(auto, unfolding(crate::specs::Words::marks_of))]
pub fn marks_in(line: &[u8]) -> Result<Marks, Fault>
    ensures same { result ≡ marks_of line.now }
    ensures fit { IfOk result (λ m. marks_fit m ≡ true) }
{
    match rest_after(line, "marks ") {
        Some(numbers) => marks_by(three_numbers(numbers)),
        None => Err(Fault::NotOfForm),
    }
}
