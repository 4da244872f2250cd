//! Where texts come from.
ghost use Rattle.std.specs.Prelude.{◌≡◌, ◌+◌, ◌^◌, ◌<◌, ◌≤◌, [], ℕ, List, Option, OnOk, IsErrOf, vec_len};
ghost use Rattle.fw_outside.specs.Outside.{IsText, IsCutText, one_more, fetch_faults_after};

use crate::FetchFault;

/// A folder of texts, by name.
pub trait Folder {
    /// The bytes under each name, none for a name that is not there; or nothing, where the folder does not tell.
    ghost texts: { Self → Option (List ℕ → Option (List ℕ)) };

    /// How often a text was asked for; a count of 2^64 - 1 stands for that many or more.
    ghost fetch_count: { Self → ℕ };

    /// How often the folder failed: once for each call that answers `Failed`.
    ghost fault_count: { Self → ℕ };

    /// Puts all bytes of a text into `into`, in place of what was there, where they are at most `limit`.
    /// Of a longer text it leaves the first `limit + 1`; after another refusal `into` is empty.
    ///
    /// # Errors
    ///
    /// `TooLarge` where the text is longer than the limit; `Failed` where the folder fails, and a name that is not there is
    /// a fault; `NoMemory` where memory is refused, which may come at any time. The texts stay in each case, and a later
    /// call may succeed.
    fn fetch(&mut self, name: &str, limit: usize, into: &mut Vec<u8>) -> Result<(), FetchFault>
        requires { limit < 2 ^ 32 }
        ensures text { OnOk result (IsText (texts self.old) name.now into.new.items) }
        ensures within { OnOk result (vec_len into.new ≤ limit) }
        ensures too_large { IsErrOf result FetchFault.TooLarge → IsCutText (texts self.old) name.now limit into.new.items }
        ensures cut { IsErrOf result FetchFault.TooLarge → vec_len into.new ≡ limit + 1 }
        ensures failed_empty { IsErrOf result FetchFault.Failed → into.new.items ≡ [] }
        ensures no_memory_empty { IsErrOf result FetchFault.NoMemory → into.new.items ≡ [] }
        ensures counted { fetch_count self.new ≡ one_more (fetch_count self.old) }
        ensures faults { fault_count self.new ≡ fetch_faults_after result (fault_count self.old) }
        ensures texts_stay { texts self.new ≡ texts self.old };

    /// How often the folder failed; a count of 2^64 - 1 stands for that many or more.
    fn faults(&self) -> u64
        ensures { result ≡ fault_count self.now };
}
