ghost use Rattle.std.specs.Prelude.{◌≡◌, ℕ, List};

/// The names that texts are written with.
pub trait Names {
    /// Each section's name, by its number. A number of no section has the empty name.
    ghost section_names: { Self → ℕ → List ℕ };

    /// Each symbol's name, by its number. A number of no symbol has the empty name.
    ghost symbol_names: { Self → ℕ → List ℕ };

    /// The name of the section with this number, or nothing where there is none.
    fn section_name(&self, sec: u32) -> &[u8]
        ensures { result.now ≡ section_names self.now sec };

    /// The name of the symbol with this number, or nothing where there is none.
    fn symbol_name(&self, sym: u32) -> &[u8]
        ensures { result.now ≡ symbol_names self.now sym };
}
