//! The store of one machine of a group: what `plc format` makes, once, what each start reads, and what each epoch of the
//! group that the machine enters or begins puts in its place.
//!
//! ```rust
//! let store = Store::new(header, image).ok_or(Refusal::TooLong)?;
//! format(alloc, &mut directory, &store)?; // refused where the directory holds anything of a store
//! let opened = open(alloc, &directory, &wanted)?; // opened.start: First, Again, or Waits
//! let store = keep(alloc, &mut directory, &Kept::Entered(epoch), draw(&rt)?)?; // it's known by that number now
//! let store = keep(alloc, &mut directory, &Kept::Begun(epoch), draw(&rt)?)?; // by the same; and no view stands there
//! let store = see(alloc, &mut directory, 2, seen)?; // machine 2 has this store in that epoch
//! let image = changed_in(alloc, &directory)?; // to which the program was changed in it
//! let by_hand = ByHand::Next;
//! let store = enter_by_hand(alloc, &mut directory, by_hand, Some(image), draw(&rt)?)?; // the next epoch, with this image
//! ```
//!
//! Proved: a store has one spelling, which is read as that store; nothing else is read, no file that was cut, and none
//! of another format. A directory is judged by a total function (`specs/Judging`): a machine starts as new exactly
//! where it has entered an epoch and not begun it; where nothing was formatted, where the view of an epoch that was
//! begun is gone, and where the group file is another's it's refused, with what is wrong. `format` changes only a
//! directory that holds nothing. What a store has of epochs never goes back; `keep` answers only once the store has it,
//! and begins an epoch only in a directory from which the views of the one before are gone, so a store that has begun
//! its epoch is never judged new in it again, whatever happens to the view (`a_start_is_new_once`). By hand a store
//! that was marked by a change of the program goes on only with an image that is given. What a store is known by, and
//! which stores of other machines were seen, counts in one epoch: in another one it's known by the number that was drawn
//! for that, so a copy from an epoch before isn't the store that others have seen (`a_copy_is_another_store`). A mark has
//! the image to which the program was changed, and is read as that (`a_mark_has_its_image`).
//!
//! By its code alone: that a file is written beside, with the owner and the rights of the one before, flushed and
//! renamed, that views are taken away and that is flushed, and that one process at a time has the directory. That a
//! disk keeps what was flushed, and that no number is drawn twice, are premises.
#![tactic(auto)]

mod changed;
mod directory;
mod drawing;
mod files;
mod header;
mod judging;
mod keeping;
mod laws;
mod marking;
mod opening;
mod reading;
mod showing;
mod spelling;

pub use changed::changed_in;
pub use directory::{DiskFault, FileDirectory, StoreDirectory};
pub use drawing::draw;
pub use files::WholeFile;
pub use header::{Header, Seen, Store};
pub use judging::{Refusal, Start, Wanted, is_changed, is_unbegun, judge};
pub use keeping::{ByHand, enter_by_hand, keep, see};
pub use laws::{
    a_copy_is_another_store, a_mark_has_its_image, a_start_is_new_once, cut_is_refused,
};
pub use marking::ChangeMark;
pub use opening::{Opened, format, open, stored_in};
pub use reading::{StoreFault, read_store};
pub use showing::{cause_text, epoch_line, show, show_directory, tell_refusal};
pub use spelling::spell;
