//! Kinds of entries.

ghost use Rattle.std.specs.Prelude.{◌≡◌, ◌<◌, ℕ, List};
ghost use Rattle.special_sections.specs.Kinds.{EntryKind};

use crate::fault::Why;
use crate::section::EntrySection;

/// How the entries of a kind stand in the sections of a name.
pub(crate) trait Format {
    type Entry: Copy;

    ghost kind: { Self → EntryKind Self.Entry };

    /// The name of the sections.
    fn name(&self) -> &'static [u8]
        ensures { result.now ≡ (kind self.now).name };

    /// Why a section as a whole is refused.
    fn section_why(&self, section: &EntrySection<'_, '_>) -> Option<Why>
        ensures { result ≡ (kind self.now).section_why section.now.object.now section.now.sec };

    /// How many entries a section has.
    fn count(&self, section: &EntrySection<'_, '_>) -> u32
        ensures { result ≡ (kind self.now).count section.now.object.now section.now.sec };

    /// Why an entry is refused.
    fn why(&self, section: &EntrySection<'_, '_>, e: u32) -> Option<Why>
        requires { e < (kind self.now).count section.now.object.now section.now.sec }
        ensures { result ≡ (kind self.now).why section.now.object.now section.now.sec e };

    /// What an entry says.
    fn entry(&self, section: &EntrySection<'_, '_>, e: u32) -> Self::Entry
        requires { e < (kind self.now).count section.now.object.now section.now.sec }
        ensures { result ≡ (kind self.now).entry section.now.object.now section.now.sec e };
}
