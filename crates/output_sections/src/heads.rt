//! The output sections of a class: of each the number of its first item, and the type of the item that stands first in it, which may be the
//! last one of all.

ghost use Rattle.std.specs.Prelude.{◌≡◌, ℕ, IfOk, OnOk, None, Some, true};
ghost use Rattle.lk_tables.specs.Classes.{is_in};
ghost use Rattle.lk_tables.specs.OutputNames.{output_name, priority_of};
ghost use Rattle.output_sections.specs.Heads.{IsIn, IsLast, IsNone, Stays};
ghost use Rattle.output_sections.specs.Items.{Item as Part};
ghost use Rattle.output_sections.specs.ItemViews.{item_view};
ghost use Rattle.output_sections.specs.Order.{with_item};

use crate::items::Item;
use lk_base::abi::SHT_PROGBITS;
use lk_tables::{Class, is_in, output_name, output_rank, priority_of};
use std::alloc::{AllocError, Global};
use std::collections::BTreeMap;

/// What is known of an output section.
#[derive(Clone, Copy, Debug, PartialEq, Eq)]
pub struct Head {
    /// The number of its first item in the order of the command.
    pub group: u32,
    /// The least priority of an item of it.
    pub priority: u32,
    /// The type of the first item of that priority, which stands first in it.
    pub sh_type: u32,
}

/// What is known of the output sections of a class.
#[derive(Drop)]
pub struct ClassHeads<'a> {
    /// Of each of them, by name.
    pub heads: BTreeMap<&'a [u8], Head>,
    /// The one to which the item before went. Most items go there too, and then none is looked up.
    pub last: Last<'a>,
}

/// The output section to which the item before in a class went.
#[derive(Clone, Copy)]
pub struct Last<'a> {
    /// Its name.
    pub name: &'a [u8],
    /// What is known of it: before the first item nothing.
    pub head: Option<Head>,
    /// Its rank, by what is known of it.
    pub rank: u32,
}

/// Before the first item of a class.
pub fn no_head<'a>(alloc: Global, class: Class) -> ClassHeads<'a>
    ensures { IsNone class result }
{
    ClassHeads {
        heads: BTreeMap::new(alloc),
        last: Last {
            name: &[],
            head: None,
            rank: output_rank(class, SHT_PROGBITS, &[]),
        },
    }
}

/// One more item of a class, in its output section, which the next item finds as the last one. Answers whether what was known before stays.
pub fn note_item<'a>(
    known: &mut ClassHeads<'a>,
    class: Class,
    number: u32,
    item: &Item<'a>,
    priority: u32,
) -> Result<bool, AllocError>
    requires held { IsLast class known.old.heads known.old.last }
    requires here { is_in class item.now.sh_type item.now.flags ≡ true }
    requires priority { priority ≡ priority_of item.now.name.now }
    ensures noted { OnOk result (IsIn class number (item_view item.now) known.old known.new) }
    ensures settled { IfOk result (λ settled. settled ≡ true → Stays known.old.heads known.new.heads) }
{
    known.last = turn_to(&known.heads, known.last, class, output_name(item.name));
    if stays(known.last.head, priority) {
        return Ok(true);
    }
    let fresh = is_unknown(known.last.head);
    let head = with_item(known.last.head, number, item);
    known.heads.insert(known.last.name, head)?;
    known.last.head = Some(head);
    known.last.rank = output_rank(class, head.sh_type, known.last.name);
    Ok(fresh)
}

/// The output section of a name, which mostly is that of the item before.
pub fn turn_to<'a>(
    heads: &BTreeMap<&'a [u8], Head>,
    last: Last<'a>,
    class: Class,
    name: &'a [u8],
) -> Last<'a>
    requires { IsLast class heads.now last }
    ensures held { IsLast class heads.now result }
    ensures name { result.name.now ≡ name.now }
{
    if name == last.name {
        return last;
    }
    match heads.get(&name) {
        Some(head) => Last {
            name,
            head: Some(*head),
            rank: output_rank(class, head.sh_type, name),
        },
        None => Last {
            name,
            head: None,
            rank: output_rank(class, SHT_PROGBITS, name),
        },
    }
}

/// Whether nothing is known of an output section.
fn is_unknown(head: Option<Head>) -> bool
    ensures { result ≡ true → head ≡ None }
{
    match head {
        Some(_) => false,
        None => true,
    }
}

/// Whether an item of a priority leaves what is known of its output section as it is.
#[tactic(auto, unfolding(crate::specs::Order::with_item))]
fn stays(head: Option<Head>, priority: u32) -> bool
    ensures { result ≡ true → (number : ℕ) (item : Part) → priority ≡ priority_of item.name → Some (with_item head number item) ≡ head }
{
    match head {
        Some(head) => head.priority <= priority,
        None => false,
    }
}

/// An output section with one more item.
#[tactic(auto, unfolding(crate::specs::Order::with_item))]
fn with_item(head: Option<Head>, number: u32, item: &Item) -> Head
    ensures { result ≡ with_item head number (item_view item.now) }
{
    let priority = priority_of(item.name);
    let Some(head) = head else {
        return Head {
            group: number,
            priority,
            sh_type: item.sh_type,
        };
    };
    if priority < head.priority {
        return Head {
            group: head.group,
            priority,
            sh_type: item.sh_type,
        };
    }
    head
}
