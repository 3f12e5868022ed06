ghost use Rattle.std.specs.Prelude.{◌≡◌, None};
ghost use Rattle.program_model.specs.Program.{of_point};
ghost use Rattle.machine_defs.specs.Allowances.{is_safe_owner};
ghost use Rattle.machine_model.specs.Allowed.{is_listed, allowances_of};

use program_model::Program;

/// What an object and the lists of names allow, by the numbers of points and symbols.
#[derive(Clone, Copy)]
pub struct Allowed<'a> {
    /// The points at which an indirect branch or a return may stay as it is.
    pub safe_branches: &'a [u32],
    /// The points whose code runs before user space does.
    pub before_user_space: &'a [u32],
    /// The symbols of functions that may be called with user access on.
    pub safe_names: &'a [u32],
    /// The points in place of which a processor with SMAP has other code.
    pub lacking_smap: &'a [u32],
}

/// Whether the number is among these.
fn is_listed(numbers: &[u32], number: u32) -> bool
    ensures { result ≡ is_listed numbers.now number }
{
    numbers.contains(&number)
}

/// The owner of a point.
fn owner(p: &Program, q: u32) -> Option<u32>
    ensures { result ≡ of_point p.now None (λ x. x.owner) q }
{
    match p.point(q) {
        Some(point) => point.owner,
        None => None,
    }
}

impl Allowed<'_> {
    ghost use Rattle.std.specs.Prelude.{◌≡◌, List, Bool};
    ghost use Rattle.program_model.specs.Program.{program_of};
    ghost use Rattle.machine_defs.specs.Allowances.{is_safe, is_safe_owner};
    ghost use Rattle.machine_model.specs.Allowed.{allowances_of};

    /// Whether an indirect branch or a return may stay as it is at a point.
    pub fn is_safe_branch(&self, q: u32) -> bool
        ensures { result ≡ (allowances_of self.now).safe_branch q }
    {
        is_listed(self.safe_branches, q)
    }

    /// Whether a point's code runs before user space does.
    pub fn is_before_user_space(&self, q: u32) -> bool
        ensures { result ≡ (allowances_of self.now).before_user_space q }
    {
        is_listed(self.before_user_space, q)
    }

    /// Whether a symbol is that of a function that may be called with user access on.
    pub fn is_safe_name(&self, sym: u32) -> bool
        ensures { result ≡ (allowances_of self.now).safe_name sym }
    {
        is_listed(self.safe_names, sym)
    }

    /// Whether a processor with SMAP has other code in place of a point.
    pub fn lacks_smap(&self, q: u32) -> bool
        ensures { result ≡ (allowances_of self.now).lacks_smap q }
    {
        is_listed(self.lacking_smap, q)
    }

    /// Whether an owner is a function that may be called with user access on.
    fn is_safe_owner(&self, owner: Option<u32>) -> bool
        ensures { result ≡ is_safe_owner (allowances_of self.now) owner }
    {
        match owner {
            None => false,
            Some(function) => self.is_safe_name(function),
        }
    }

    /// Whether a point is in a safe function.
    pub fn is_safe(&self, p: &Program, q: u32) -> bool
        ensures { (set : List Bool) → result ≡ is_safe (program_of p.now set) (allowances_of self.now) q }
    {
        self.is_safe_owner(owner(p, q))
    }
}
