// Whether a statement is allowed under the settings: any statement, any settings.
#![tactic(auto)]

ghost use Rattle.std.specs.Prelude.{◌≡◌, true, false};
ghost use Rattle.std.proofs.Math.Option.{none};
ghost use Rattle.rules.specs.Messages.{allowed};
ghost use Rattle.rules.specs.Words.{message as said};
ghost use Rattle.settings.specs.Made.{settings_of};
ghost use Rattle.wire.specs.Meaning.{statement_of};

use settings::Settings;
use wire::Statement;

// Whether a new-view is allowed.
fn new_view_allowed(settings: Settings, statement: Statement) -> bool
    requires { statement.is_new_view ≡ true }
    ensures { result ≡ allowed (settings_of settings) (said (statement_of statement none)) }
{
    let view = statement.view as u64;
    let height = statement.height as u64;
    let name = statement.name;
    let link = statement.link;
    let block = clauses::view_allowed(settings, view) & clauses::block_allowed(height, name);
    let certificate = clauses::certificate_allowed(settings, height, link.fourth, statement.mask);
    block
        & clauses::link_below(link, view)
        & certificate
        & clauses::leads(settings, view, statement.author as u64)
}

// Whether a propose is allowed.
fn propose_allowed(settings: Settings, statement: Statement) -> bool
    requires { statement.is_new_view ≡ false }
    ensures { result ≡ allowed (settings_of settings) (said (statement_of statement none)) }
{
    let view = statement.view as u64;
    let height = statement.height as u64;
    if height < 1 {
        return false;
    }
    let name = statement.name;
    let parent = statement.link;
    let block = clauses::view_allowed(settings, view)
        & clauses::block_allowed(height, name)
        & clauses::block_allowed(height - 1, parent);
    block
        & clauses::mask_allowed(settings, statement.mask)
        & clauses::leads(settings, view, statement.author as u64)
}

// Whether a statement is allowed.
pub fn statement_allowed(settings: Settings, statement: Statement) -> bool
    ensures { result ≡ allowed (settings_of settings) (said (statement_of statement none)) }
{
    if statement.is_new_view {
        return new_view_allowed(settings, statement);
    }
    propose_allowed(settings, statement)
}
