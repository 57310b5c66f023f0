//! A law about the images of a log's disk.
ghost use Rattle.std.specs.Prelude.{◌≡◌, ◌≤◌, ◌⊎◌, ℕ, List};
ghost use Rattle.fb_values.specs.declared.facts.Entry.{Entry};
ghost use Rattle.fb_model.specs.History.{basis, upto};
ghost use Rattle.disk_model.specs.Disk.{LeavesOnly};
ghost use Rattle.log_model.specs.Log.{IsLogOf};
ghost use Rattle.disk_log.specs.Disks.{IsLogFrom};

use fb_disk::Disk;

/// Since before an opening, too, a crash leaves the log of the history from the opening on, or an image from before the
/// opening. The disk was `opened`, and the log of the entries 0 to r was begun.
pub fn a_log_goes_on_from_its_opening<D: Disk>()
    ensures { (opened begun now : D) (r : ℕ) (h : List Entry)
        → LeavesOnly D.moment D.images_since opened begun
        (λ image. D.images opened image ⊎ IsLogOf image (upto h r))
        → LeavesOnly D.moment D.images_since begun now (IsLogFrom r h)
        → r ≤ basis h
        → LeavesOnly D.moment D.images_since opened now
        (λ image. D.images opened image ⊎ IsLogFrom r h image) }
{}
