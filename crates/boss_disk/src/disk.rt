ghost use Rattle.std.specs.Prelude.{◌≡◌, ℕ, ◌+◌, ◌≤◌, ◌<◌, ◌^◌, List, length, take, drop, Ok, true, OnOk, IfOk, IsErr};
ghost use Rattle.boss_outside.specs.Counts.{HasCause};
ghost use Rattle.boss_disk.specs.Runs.{WritesThrough};
ghost use Rattle.boss_disk.specs.Story.{Story, Steps, WritesWhole};
ghost use Rattle.boss_disk.specs.Window.{IsImage, settled, after_write, after_cut, overwritten};

use boss_outside::Failed;

/// Bytes that are read and written by their places, counted from 0. There are at most `2 ^ 62` of them. What was written
/// is sure to outlast a crash only once a sync has succeeded.
pub trait Disk {
    /// That the values of this type tell what they hold. A form in memory does; a real one can't.
    ghost tells: { Type 0 };

    /// The bytes that a read gives.
    ghost reads: { Self → List ℕ };

    /// What a crash may leave, now and after each call before.
    ghost story: { Self → Story };

    /// The number of calls that failed, up to `2 ^ 64 - 1`, where it stands still.
    ghost faults: { Self → ℕ };

    /// The number of bytes, at most `2 ^ 62`.
    fn length(&mut self) -> Result<u64, Failed>
        ensures within { IfOk result (λ size. size ≤ 2 ^ 62) }
        ensures size { tells → IfOk result (λ size. size ≡ length (reads self.old)) }
        ensures bytes { tells → reads self.new ≡ reads self.old }
        ensures windows { tells → story self.new ≡ story self.old }
        ensures cause { HasCause (faults self.old) (faults self.new) result };

    /// Fills the slice with the bytes from this place on.
    fn read_at(&mut self, at: u64, into: &mut [u8]) -> Result<(), Failed>
        requires { tells → at + length into.old ≤ length (reads self.old) }
        ensures given { tells → OnOk result (into.new ≡ take (length into.old) (drop at (reads self.old))) }
        ensures bytes { tells → reads self.new ≡ reads self.old }
        ensures windows { tells → story self.new ≡ story self.old }
        ensures cause { HasCause (faults self.old) (faults self.new) result };

    /// Puts these bytes at this place, over those that are there and past the end. It fails where the length would pass
    /// `2 ^ 62`. After a failure any part of them may be written.
    fn write_at(&mut self, at: u64, bytes: &[u8]) -> Result<(), Failed>
        requires { tells → at ≤ length (reads self.old) }
        ensures limit { 2 ^ 62 < at + length bytes.now → IsErr result }
        ensures bytes { tells → OnOk result (reads self.new ≡ overwritten at bytes.now (reads self.old)) }
        ensures windows { tells → let torn = after_write at (length bytes.now) (story self.old).window in Steps torn torn (story self.old) (story self.new) result }
        ensures cause { HasCause (faults self.old) (faults self.new) result };

    /// Drops all bytes from this place on. After a failure they may be dropped or not.
    fn cut(&mut self, size: u64) -> Result<(), Failed>
        requires { tells → size ≤ length (reads self.old) }
        ensures bytes { tells → OnOk result (reads self.new ≡ take size (reads self.old)) }
        ensures windows { tells → let torn = after_cut size (story self.old).window in Steps torn torn (story self.old) (story self.new) result }
        ensures cause { HasCause (faults self.old) (faults self.new) result };

    /// Makes all that was written and cut outlast a crash.
    fn sync(&mut self) -> Result<(), Failed>
        ensures bytes { tells → reads self.new ≡ reads self.old }
        ensures windows { tells → Steps (settled (reads self.old)) (story self.old).window (story self.old) (story self.new) result }
        ensures cause { HasCause (faults self.old) (faults self.new) result };

    /// Puts these bytes at this place and syncs the disk, whole or not at all, and tells whether it did. `false`: it can't do that with
    /// these bytes, and all is as it was. After a failure all is as it was, or was done. A disk that a crash may tear never does it.
    fn write_whole(&mut self, at: u64, bytes: &[u8]) -> Result<bool, Failed>
        requires { tells → at ≤ length (reads self.old) }
        ensures limit { result ≡ Ok true → at + length bytes.now ≤ 2 ^ 62 }
        ensures windows { tells → WritesWhole at bytes.now (reads self.old) (reads self.new) (story self.old) (story self.new) result }
        ensures cause { HasCause (faults self.old) (faults self.new) result }
    {
        Ok(false)
    }

    /// A crash may leave what a read gives.
    ghost reads_stay: { (disk : Self) → tells → IsImage (story disk).window (reads disk) };
}

/// Writes these bytes at this place and syncs the disk.
pub fn write_through<D: Disk>(disk: &mut D, at: u64, bytes: &[u8]) -> Result<(), Failed>
    requires { D.tells → at ≤ length (D.reads disk.old) }
    ensures limit { 2 ^ 62 < at + length bytes.now → IsErr result }
    ensures bytes { D.tells → OnOk result (D.reads disk.new ≡ overwritten at bytes.now (D.reads disk.old)) }
    ensures windows { D.tells → WritesThrough at bytes.now (D.reads disk.old) (D.story disk.old) (D.story disk.new) result }
    ensures cause { HasCause (D.faults disk.old) (D.faults disk.new) result }
{
    disk.write_at(at, bytes)?;
    disk.sync()
}
