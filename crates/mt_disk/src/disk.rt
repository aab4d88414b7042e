//! A disk of three files, as its users see it.

/// The three files of a store.
#[derive(Clone, Copy, Debug, PartialEq, Eq)]
pub enum FileNo {
    /// One byte, which names the file that holds the log.
    Head,
    /// The log, or what is left of an older one.
    One,
    /// The log after a compaction, or what is left of an older one.
    Two,
}

/// The disk has failed, and has counted it.
#[derive(Clone, Copy, Debug, PartialEq, Eq)]
pub struct DiskFault;

/// Three files under one clock of crash images. A call fits where a read needs no byte past the end, and a
/// write or a cut does not begin past the end; where the disk tells its contents, the calls ask for that.
pub trait Disk {
    ghost use Rattle.std.specs.Prelude.{◌≡◌, ◌≤◌, ◌+◌, ℕ, List, length, take, IfOk, OnOk, IfSome, Option, option_map, is_some, slice_range};
    ghost use Rattle.std.specs.Option.{ForSome};
    ghost use Rattle.mt_base.specs.Counts.{HasCause};
    ghost use Rattle.mt_disk.specs.Files.{Files, contents, with_contents, overwritten};
    ghost use Rattle.mt_disk.specs.CrashModel.{Torn, MaybeCut, OnFile, Follows, SameImages, Only, Elapses};

    /// What a read gives, where the disk tells it.
    ghost seen: { Self → Option Files };

    /// What a crash at this moment may leave. Of a disk that doesn't tell, nothing is said here.
    ghost may_leave: { Self → Files → Type 0 };

    /// The moment, as a number that doesn't fall.
    ghost moment: { Self → ℕ };

    /// What a crash at some moment from that one on might have left, during a call or between two.
    ghost left_since: { Self → ℕ → Files → Type 0 };

    /// How often the disk has failed.
    ghost faults: { Self → ℕ };

    /// What its calls keep of the disk itself: one over a disk that is lent holds that one still.
    ghost stays: { Self → Self → Type 0 };

    /// The length of a file, in bytes.
    fn len(&mut self, file: FileNo) -> Result<u64, DiskFault>
        ensures bytes { IfOk result (λ n. IfSome (seen self.old) (λ files. n ≡ length (contents files file))) }
        ensures seen { seen self.new ≡ seen self.old }
        ensures crash { SameImages (may_leave self.old) (may_leave self.new) }
        ensures time { Elapses (moment self.old) (moment self.new) (left_since self.old) (left_since self.new) (may_leave self.new) }
        ensures cause { HasCause (faults self.old) (faults self.new) result }
        ensures stays { stays self.old self.new };

    /// Fills the piece with the bytes of a file from a place on.
    fn read(&mut self, file: FileNo, at: u64, into: &mut [u8]) -> Result<(), DiskFault>
        requires { ForSome (seen self.old) (λ files. at + length into.old ≤ length (contents files file)) }
        ensures bytes { OnOk result (IfSome (seen self.old) (λ files.
            into.new ≡ slice_range (contents files file) at (at + length into.old))) }
        ensures seen { seen self.new ≡ seen self.old }
        ensures crash { SameImages (may_leave self.old) (may_leave self.new) }
        ensures time { Elapses (moment self.old) (moment self.new) (left_since self.old) (left_since self.new) (may_leave self.new) }
        ensures cause { HasCause (faults self.old) (faults self.new) result }
        ensures stays { stays self.old self.new };

    /// Writes over what is there, and past the end. Until a sync, a crash may leave any bytes in the range.
    fn write_at(&mut self, file: FileNo, at: u64, piece: &[u8]) -> Result<(), DiskFault>
        requires { ForSome (seen self.old) (λ files. at ≤ length (contents files file)) }
        ensures written { OnOk result (seen self.new ≡ option_map (λ files.
            with_contents files file (overwritten (contents files file) at piece.now)) (seen self.old)) }
        ensures told { is_some (seen self.new) ≡ is_some (seen self.old) }
        ensures crash { Follows (OnFile file (Torn at (length piece.now))) (may_leave self.old) (may_leave self.new) }
        ensures time { Elapses (moment self.old) (moment self.new) (left_since self.old) (left_since self.new) (may_leave self.new) }
        ensures cause { HasCause (faults self.old) (faults self.new) result }
        ensures stays { stays self.old self.new };

    /// Cuts a file to a length. Until a sync, a crash may leave it cut or not.
    fn cut(&mut self, file: FileNo, to: u64) -> Result<(), DiskFault>
        requires { ForSome (seen self.old) (λ files. to ≤ length (contents files file)) }
        ensures done { OnOk result (seen self.new ≡ option_map (λ files.
            with_contents files file (take to (contents files file))) (seen self.old)) }
        ensures told { is_some (seen self.new) ≡ is_some (seen self.old) }
        ensures crash { Follows (OnFile file (MaybeCut to)) (may_leave self.old) (may_leave self.new) }
        ensures time { Elapses (moment self.old) (moment self.new) (left_since self.old) (left_since self.new) (may_leave self.new) }
        ensures cause { HasCause (faults self.old) (faults self.new) result }
        ensures stays { stays self.old self.new };

    /// After it, a crash leaves of this file what a read gives. A sync that fails adds nothing to what a crash
    /// may leave.
    fn sync(&mut self, file: FileNo) -> Result<(), DiskFault>
        ensures durable { OnOk result (IfSome (seen self.old) (λ files.
            (c : Files) → may_leave self.new c → contents c file ≡ contents files file)) }
        ensures seen { seen self.new ≡ seen self.old }
        ensures crash { (c : Files) → may_leave self.new c → may_leave self.old c }
        ensures time { Elapses (moment self.old) (moment self.new) (left_since self.old) (left_since self.new) (may_leave self.new) }
        ensures cause { HasCause (faults self.old) (faults self.new) result }
        ensures stays { stays self.old self.new };

    /// What a crash now may leave counts among what one since an earlier moment might have left.
    ghost counts_now: { (disk : Self) (t : ℕ) (c : Files) → t ≤ moment disk → may_leave disk c → left_since disk t c };

    /// Since this moment there is no other.
    ghost only_now: { (disk : Self) (c : Files) → left_since disk (moment disk) c → may_leave disk c };

    /// What a read gives is one of the images that a crash now may leave.
    ghost seen_is_left: { (disk : Self) → ForSome (seen disk) (λ files. may_leave disk files) };

    /// What no call was made of stays.
    ghost same: { (disk : Self) → stays disk disk };

    /// What stays over one call after another stays over both.
    ghost joined: { (a b c : Self) → stays a b → stays b c → stays a c };
}
