// A fresh list for the plain engine, of whatever bytes a host lends.
#![tactic(auto)]

ghost use Rattle.std.specs.Prelude.{◌≡◌};
ghost use Rattle.lent_list.specs.Plain.{left, plain_fresh};

use lent_list::Refusal;
use settings::{Settings, Size};

// Makes a fresh list of whatever was in it.
#[unsafe(no_mangle)]
pub extern "C" fn plain_fresh(list: &mut [u8], n: u64, d: u64, own: u64) -> u64
    ensures { left result list.new ≡ plain_fresh list.old n d own }
{
    if lent_list::has_length(list) {
        let Some(_) = Settings::new(n, d, own, Size::Small) else {
            return Refusal::BadSettings.answer();
        };
        fields::put(list, 0, 1, n);
        fields::put(list, 1, 2, d);
        fields::put(list, 3, 1, own);
        let rest = list.len() - 4;
        fields::clear(list, 4, rest);
        return 0;
    }
    Refusal::Lengths.answer()
}
