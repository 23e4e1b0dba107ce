// What bars a call of the plain engine before the rules are asked: a length, or the form of its list.
#![tactic(auto)]

ghost use Rattle.std.specs.Prelude.{◌≡◌};
ghost use Rattle.plain_lists.specs.Meaning.{bar};

use settings::Settings;

// What bars a call before the rules are asked: 1 for a length, 2 for the list's form.
pub fn barred(list: &[u8], out: &[u8]) -> u64
    ensures { result ≡ bar list.now out.now }
{
    if out.len() < Settings::LEAST_OUT {
        return 1;
    }
    if lent_list::has_length(list) {
        if lent_list::has_form(list) {
            return 0;
        }
        return 2;
    }
    1
}
