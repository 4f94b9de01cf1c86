//! A block's home.
ghost use Rattle.std.specs.Prelude.{◌≡◌, ◌++◌, not, OnOk};
ghost use Rattle.std.specs.List.{list_any};
ghost use Rattle.home_directory.specs.Home.{owner_of};
ghost use Rattle.sn_model.specs.Fabric.{home_of, initial_block};
ghost use Rattle.state_json.specs.Json.{or_null};
ghost use Rattle.state_json.specs.Values.{transaction_text};
ghost use Rattle.state_json.specs.Parts.{holder_text, is_itself, is_as_at_start, other_home_text, home_text};

use sn_base::{BlockNo, Memory, NodeSet};
use sn_machine::{Machine, Owner, Transaction};
use state_texts::{
    add, add_content, add_member, add_null, add_number, add_opening, add_sharers, add_transaction,
};

#[tactic(auto, using(crate::proofs::Homes::none_marked))]
fn has_none(sharers: NodeSet) -> bool
    ensures { result ≡ not (list_any (λ mark. mark) sharers) }
{
    sharers.count() == 0
}

/// Whether the home, which owns the block, has the bytes that the program gives it.
fn has_first_bytes(machine: &Machine, block: BlockNo) -> bool
    requires { owner_of (home_of machine.now.state.fabric block).holder ≡ Owner.Home }
    ensures { result ≡ is_itself (home_of machine.now.state.fabric block).holder (initial_block machine.now.image block) }
{
    *machine.home_content(block) == machine.image().block(block)
}

/// Whether the home's entry of a block is as at the program's start.
#[tactic(auto, unfolding(state_json::specs::Parts::is_as_at_start))]
pub fn is_as_at_start(machine: &Machine, block: BlockNo) -> bool
    ensures { result ≡ is_as_at_start machine.now.image block (home_of machine.now.state.fabric block) }
{
    match machine.owner(block) {
        Owner::Home => {
            has_first_bytes(machine, block)
                && has_none(machine.sharers(block))
                && machine.transaction(block).is_none()
        }
        Owner::Cache(_) => false,
    }
}

/// Who owns the block, and its content where the home does.
fn add_holder(text: &mut Vec<u8>, machine: &Machine, block: BlockNo) -> Result<(), Memory>
    ensures { OnOk result (text.new.items ≡ text.old.items ++ holder_text (home_of machine.now.state.fabric block).holder) }
{
    add_member(text, "owner")?;
    match machine.owner(block) {
        Owner::Home => {
            add_null(text)?;
            add_member(text, "content")?;
            add_content(text, machine.home_content(block))
        }
        Owner::Cache(node) => {
            add_number(text, u64::from(node.number()))?;
            add_member(text, "content")?;
            add_null(text)
        }
    }
}

fn add_open(text: &mut Vec<u8>, transaction: &Option<Transaction>) -> Result<(), Memory>
    ensures { OnOk result (text.new.items ≡ text.old.items ++ or_null transaction_text transaction.now) }
{
    match transaction {
        Some(open) => add_transaction(text, open.kind, open.requester, open.begun),
        None => add_null(text),
    }
}

/// An entry whole, also one that is as at the start.
pub fn add_other_home(text: &mut Vec<u8>, machine: &Machine, block: BlockNo) -> Result<(), Memory>
    ensures { OnOk result (text.new.items ≡ text.old.items ++ other_home_text block (home_of machine.now.state.fabric block)) }
{
    add_opening(text, "block")?;
    add_number(text, u64::from(block.number()))?;
    add_holder(text, machine, block)?;
    add_member(text, "sharers")?;
    add_sharers(text, machine.sharers(block))?;
    add_member(text, "transaction")?;
    add_open(text, &machine.transaction(block))?;
    add(text, "}")
}

/// The home's entry of a block: one that is as at the start by its block alone.
#[tactic(auto, unfolding(state_json::specs::Parts::home_text))]
pub fn add_home(text: &mut Vec<u8>, machine: &Machine, block: BlockNo) -> Result<(), Memory>
    ensures { OnOk result (text.new.items ≡ text.old.items
        ++ home_text machine.now.image block (home_of machine.now.state.fabric block)) }
{
    if !is_as_at_start(machine, block) {
        return add_other_home(text, machine, block);
    }
    add_opening(text, "block")?;
    add_number(text, u64::from(block.number()))?;
    add(text, "}")
}
