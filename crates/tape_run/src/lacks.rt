//! The missing sections of a catalogue.

ghost use Rattle.std.specs.Prelude.{◌≡◌, ◌+◌, ◌≤◌};
ghost use Rattle.tape_run.specs.Lacks.{entry_at, good_end, first_lack, lack_of};

use crate::section::{LAST_SECTION, SectionKey};
use crate::sections::Sections;
use tape_label::Field;

/// Returns whether the good section with this key ends its file, or `None` if there is no good copy
/// of it.
pub(crate) fn good_end(sections: &Sections, key: &SectionKey) -> Option<bool>
    ensures { result ≡ good_end (entry_at sections.now.entries key.now) }
{
    match sections.get(key) {
        Some(entry) if entry.state.is_good() => Some(entry.eof),
        _ => None,
    }
}

/// Returns the first missing section from number `from` on, among at most `most` sections.
fn first_lack(sections: &Sections, set_id: Field<6>, file: u16, from: u16, most: u16) -> Option<u16>
    requires { from + most ≤ 65535 }
    ensures { result ≡ first_lack sections.now.entries set_id file from most }
{
    let mut sect = from;
    let mut left = most;
    'sections: while left > 0 {
        let key = SectionKey { set_id, file, sect };
        match good_end(sections, &key) {
            None => return Some(sect),
            Some(true) => return None,
            Some(false) => {}
        }
        sect += 1;
        left -= 1;
    }
    Some(sect)
}

/// Returns the first missing section of a file, counting from section 1 while good ones end with
/// `EOV1`.
#[tactic(auto, unfolding(crate::specs::Lacks::lack_of))]
pub(crate) fn lack_of(sections: &Sections, set_id: Field<6>, file: u16) -> Option<u16>
    ensures { result ≡ lack_of sections.now.entries set_id file }
{
    first_lack(sections, set_id, file, 1, LAST_SECTION)
}
