//! Rows of an image's lists, each of which comes before the next.
ghost use Rattle.std.specs.Prelude.{◌≡◌, Bool};
ghost use Rattle.qfs_image.specs.Rules.{follow, is_near};

use qfs_base::image::{CondemnedRow, DroppedActor, Lease, SlotRow, TreeRow};

/// A row of a list of an image.
pub(crate) trait InOrder {
    /// Whether a row may stand right before another.
    ghost before: { Self → Self → Bool };

    /// Whether this row may stand right before `next`.
    fn is_before(&self, next: &Self) -> bool
        ensures { result ≡ before self.now next.now };
}

/// Whether each row may stand before the next. It looks at neighbours alone.
pub(crate) fn are_in_order<T: InOrder>(rows: &[T]) -> bool
    ensures { result ≡ follow T.before rows.now }
{
    for i in 1..rows.len() {
        if !rows[i - 1].is_before(&rows[i]) {
            return false;
        }
    }
    true
}

impl InOrder for Lease {
    ghost use Rattle.qfs_image.specs.Rules.{lease_before};

    ghost before = { lease_before };

    fn is_before(&self, next: &Lease) -> bool {
        self.lease < next.lease
    }
}

impl InOrder for CondemnedRow {
    ghost use Rattle.qfs_image.specs.Rules.{condemned_before};

    ghost before = { condemned_before };

    fn is_before(&self, next: &CondemnedRow) -> bool {
        self.condemned.number < next.condemned.number
    }
}

impl InOrder for DroppedActor {
    ghost use Rattle.qfs_image.specs.Rules.{dropped_before};

    ghost before = { dropped_before };

    fn is_before(&self, next: &DroppedActor) -> bool {
        self.actor < next.actor
    }
}

impl InOrder for SlotRow {
    ghost use Rattle.qfs_image.specs.Rules.{slot_before};

    ghost before = { slot_before };

    #[tactic(auto, unfolding(qfs_model_meta::specs::Slots::slot_cmp))]
    fn is_before(&self, next: &SlotRow) -> bool {
        self.block
            .cmp(&next.block)
            .then(self.slot.cmp(&next.slot))
            .is_lt()
    }
}

impl InOrder for TreeRow {
    ghost use Rattle.qfs_image.specs.Rules.{tree_before};

    ghost before = { tree_before };

    fn is_before(&self, next: &TreeRow) -> bool {
        let names = self.path.names.as_slice();
        names.cmp(next.path.names.as_slice()).is_lt() && is_near(self, next)
    }
}

/// Whether a row's directory is that of the row before, or one above that, or stands there itself.
/// In the order of paths nothing else stands between a directory and what lies in it.
#[tactic(auto, unfolding(crate::specs::Rules::is_near))]
fn is_near(last: &TreeRow, row: &TreeRow) -> bool
    ensures { result ≡ is_near last.now row.now }
{
    let names = row.path.names.as_slice();
    let depth = names.len().saturating_sub(1);
    let above = last.path.names.as_slice();
    above.starts_with(&names[..depth]) && (depth < above.len() || last.file == 0)
}
