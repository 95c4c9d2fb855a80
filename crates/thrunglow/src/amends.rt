// Amending the list of a log in which one stretch was replaced.
ghost use Rattle.std.specs.Prelude.{◌≡◌, length};
ghost use Rattle.amending.specs.Answers.{amend_answer, amend_leaves};
ghost use Rattle.thrunglow.specs.Amends.{counts_of};

use amending::edits::Edit;
use terms::Settings;

// A number and the entries of the three parts, as C takes them: kept, cut again, moved. All 0 beside a refusal.
#[repr(C)]
#[derive(Clone, Copy)]
pub struct Amendment {
    pub number: u32,
    pub front: u64,
    pub recut: u64,
    pub back: u64,
}

impl From<amending::Amendment> for Amendment {
    ghost from_gives = { λ amendment answer. answer ≡ counts_of amendment };

    #[tactic(auto, unfolding(amending::specs::Answers::amendment_number, amending::specs::Answers::front_of, amending::specs::Answers::recut_of, amending::specs::Answers::back_of))]
    fn from(amendment: amending::Amendment) -> Amendment {
        match amendment {
            Ok(counts) => Amendment {
                number: 0,
                front: counts.front,
                recut: counts.recut,
                back: counts.back,
            },
            Err(why) => Amendment {
                number: u32::from(why),
                front: 0,
                recut: 0,
                back: 0,
            },
        }
    }
}

pub fn thrunglow_amend(
    settings: Settings,
    old: &[u64],
    at: u64,
    removed: u64,
    added: u64,
    log: &[u8],
    list: &mut [u64],
) -> Amendment
    ensures answer { result ≡ counts_of (amend_answer settings old.now (record { at = at; removed = removed; added = added }) log.now (length list.old)) }
    ensures list { list.new ≡ amend_leaves settings old.now (record { at = at; removed = removed; added = added }) log.now list.old }
{
    let edit = Edit { at, removed, added };
    Amendment::from(amending::amend(settings, old, edit, log, list))
}
