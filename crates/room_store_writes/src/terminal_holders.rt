//! Who may have a terminal, and whether a user or a token has one.
ghost use Rattle.std.specs.Prelude.{◌≡◌};
ghost use Rattle.room_store_writes.specs.TerminalHolders.{has_terminal, has_token, may_have};
ghost use Rattle.room_store_writes.specs.TerminalHolders.{same_who};

use room_place::plans::Plan;
use room_types::asks::Who;
use room_types::fleet::Terminal;
use room_types::token::Token;

/// Whether a user may have a terminal beside these. A vehicle that is enrolled has a crew's
/// terminal, and no other crew has one.
pub fn may_have(plan: &Plan, terminals: &[Terminal], who: &Who) -> bool
    ensures { result ≡ may_have plan.now.areas terminals.now who.now }
{
    match who {
        Who::Desk(division) => plan.has(*division),
        Who::Position(_) => true,
        Who::Crew(_) => has_terminal(terminals, who),
    }
}

/// Whether one of these terminals is of a user.
pub fn has_terminal(terminals: &[Terminal], who: &Who) -> bool
    ensures { result ≡ has_terminal who.now terminals.now }
{
    terminals.iter().any(|terminal| is_same(who, &terminal.who))
}

/// Whether one is the other.
pub fn is_same(who: &Who, other: &Who) -> bool
    ensures { result ≡ same_who who.now other.now }
{
    other == who
}

/// Whether one of these terminals has the token.
pub fn has_token(terminals: &[Terminal], token: &Token) -> bool
    ensures { result ≡ has_token token.now terminals.now }
{
    terminals.iter().any(|terminal| *token == terminal.token)
}
