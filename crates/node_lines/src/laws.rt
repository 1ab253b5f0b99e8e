// The meaning of lines, from their spelling.

ghost use Rattle.std.specs.Prelude.{◌≡◌, ◌↔◌, ℕ, List};
ghost use Rattle.node_lines.specs.Lines.{LineView, Unreadable, line_in};
ghost use Rattle.node_lines.specs.Spelling.{Spells};

/// A line is read as what it spells, and it is unreadable exactly when it spells nothing.
pub fn law_of_commands()
    ensures spelled { (line : List ℕ) (what : LineView)
        → Spells what line ↔ ((line_in line ≡ what) × (what ≡ Unreadable → ⊥)) }
    ensures unreadable { (line : List ℕ)
        → (line_in line ≡ Unreadable) ↔ ((what : LineView) → Spells what line → ⊥) }
{}
