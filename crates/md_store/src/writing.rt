// The note of the one effect that is not published yet, and its publishing.
ghost use Rattle.std.specs.Prelude.{◌≡◌, [], drop, fold, MatchResult, ◌<◌, ◌⊎◌, length};
ghost use Rattle.left_right.specs.Sides.{view};
ghost use Rattle.md_store.specs.Publishing.{MayPublish, Publishes, page_after, WaitsFor};
ghost use Rattle.md_store.specs.Listing.{IsLegalFrom};
ghost use Rattle.md_store.specs.Locks.{Lags};

use crate::book::Front;
use crate::rule::{Learning, StoreWriter};
use crate::shown::Post;
use core::mem::replace_with;
use md_core::Effect;
use std::alloc::{AllocError, Global};
use std::sync::Wait;

fn published<R: Wait>(writer: StoreWriter, rt: &R) -> (StoreWriter, Result<(), AllocError>)
    requires { MayPublish (view writer.desk.place) writer.desk.shown.value (drop writer.behind writer.log.items) }
    ensures { MatchResult result.1
        (λ _. (result.0.desk.shown.value ≡ fold page_after writer.desk.shown.value (drop writer.behind writer.log.items))
        × (drop result.0.behind result.0.log.items ≡ [])
        × Publishes (view writer.desk.place) result.0.desk.shown.value (view result.0.desk.place))
        (λ _. (result.0.desk.shown.value ≡ writer.desk.shown.value)
        × (drop result.0.behind result.0.log.items ≡ drop writer.behind writer.log.items)
        × (view result.0.desk.place ≡ view writer.desk.place)) }
{
    md_core::laws::histories_grow_by_one_change();
    writer.publish_as::<Learning, R>(rt)
}

pub fn publish<R: Wait>(writer: &mut StoreWriter, rt: &R) -> Result<(), AllocError>
    requires { MayPublish (view writer.old.desk.place) writer.old.desk.shown.value (drop writer.old.behind writer.old.log.items) }
    ensures { MatchResult result
        (λ _. (writer.new.desk.shown.value ≡ fold page_after writer.old.desk.shown.value (drop writer.old.behind writer.old.log.items))
        × (drop writer.new.behind writer.new.log.items ≡ [])
        × Publishes (view writer.old.desk.place) writer.new.desk.shown.value (view writer.new.desk.place))
        (λ _. (writer.new.desk.shown.value ≡ writer.old.desk.shown.value)
        × (drop writer.new.behind writer.new.log.items ≡ drop writer.old.behind writer.old.log.items)
        × (view writer.new.desk.place ≡ view writer.old.desk.place)) }
{
    replace_with(writer, rt, published::<R>)
}

/// Appends a note of the effect that is left, where none waits. After a refusal what waits is as it was.
pub(crate) fn post(
    alloc: Global,
    front: Front,
    writer: &mut StoreWriter,
    effects: &[Effect],
) -> Result<(), AllocError>
    requires book { front.book ≡ writer.old.desk.shown.value.front.book }
    requires all { front.log ≡ effects.now }
    requires waits { (drop writer.old.behind writer.old.log.items ≡ [])
        ⊎ WaitsFor effects.now (view writer.old.desk.place).opening writer.old.desk.shown.value (drop writer.old.behind writer.old.log.items) }
    requires lag { Lags effects.now writer.old.desk.shown.value.front.log }
    requires left { length writer.old.desk.shown.value.front.log < length effects.now }
    requires legal { IsLegalFrom (view writer.old.desk.place).opening effects.now }
    ensures desk { writer.new.desk ≡ writer.old.desk }
    ensures pending { MatchResult result
        (λ _. WaitsFor effects.now (view writer.old.desk.place).opening writer.old.desk.shown.value (drop writer.new.behind writer.new.log.items))
        (λ _. drop writer.new.behind writer.new.log.items ≡ drop writer.old.behind writer.old.log.items) }
{
    let at = writer.published().front().len();
    if writer.has_pending_operations() {
        return Ok(());
    }
    let effect = effects[at as usize].again(alloc)?;
    writer
        .append(Post { effect, front })
        .map_err(|_| AllocError)
}
