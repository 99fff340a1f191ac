// Row 17: what is too large for the game.
ghost use Rattle.std.specs.Prelude.{◌≡◌, ◌≤◌};
ghost use Rattle.game.specs.Game.{too_large_in};

use automaton_symbols::controllable_in;

pub fn too_large(states: u8, symbols: u8, classes: &[u8; 16], held: u8) -> bool
    requires { symbols ≤ 16 }
    ensures { result ≡ too_large_in states symbols classes.now held }
{
    if 4 < states {
        return true;
    }
    let m = usize::from(symbols);
    if 2 < m - controllable_in(classes, m) {
        return true;
    }
    3 < held
}
