//! The table of what is allowed.

ghost use Rattle.std.specs.Prelude.{◌≡◌, ◌<◌, ℕ, length};
ghost use Rattle.machine_defs.specs.Allowances.{Allowances};
ghost use Rattle.program_check.specs.Allows.{Allows};

/// What is allowed at the points and symbols of a program.
#[derive(Drop)]
pub struct AllowanceTable {
    /// For each point, whether an indirect branch or a return may stay there as it is.
    pub safe_branches: Vec<bool>,
    /// For each point, whether its code runs before user space does.
    pub before_user_space: Vec<bool>,
    /// For each point, whether a processor with SMAP has other code in its place.
    pub lacking_smap: Vec<bool>,
    /// For each symbol, whether its name is listed as that of a function that may be called with user access on.
    pub safe_names: Vec<bool>,
    /// The same of the empty name, which numbers have that are no symbol's.
    pub empty_is_safe: bool,
}

impl AllowanceTable {
    /// Whether an indirect branch or a return may stay as it is at a point.
    pub fn is_safe_branch(&self, n: u32) -> bool
        requires { n < length self.now.safe_branches.items }
        ensures { (allowed : Allowances) (points : ℕ) → Allows allowed self.now points → result ≡ allowed.safe_branch n }
    {
        self.safe_branches[n as usize]
    }

    /// Whether the code of a point runs before user space does.
    pub fn is_before_user_space(&self, n: u32) -> bool
        requires { n < length self.now.before_user_space.items }
        ensures { (allowed : Allowances) (points : ℕ) → Allows allowed self.now points → result ≡ allowed.before_user_space n }
    {
        self.before_user_space[n as usize]
    }

    /// Whether a processor with SMAP has other code in place of a point.
    pub fn lacks_smap(&self, n: u32) -> bool
        requires { n < length self.now.lacking_smap.items }
        ensures { (allowed : Allowances) (points : ℕ) → Allows allowed self.now points → result ≡ allowed.lacks_smap n }
    {
        self.lacking_smap[n as usize]
    }

    /// Whether the name of a symbol is listed as that of a function that may be called with user access on.
    pub fn is_safe_name(&self, sym: u32) -> bool
        ensures { (allowed : Allowances) (points : ℕ) → Allows allowed self.now points → result ≡ allowed.safe_name sym }
    {
        match self.safe_names.get(sym as usize) {
            Some(is_safe) => *is_safe,
            None => self.empty_is_safe,
        }
    }
}
