ghost use Rattle.std.specs.Prelude.{◌≡◌};
ghost use Rattle.code_commands.specs.SitesWords.{list_options};

use cli_words::SiteOptions;
use site_lists::ListOptions;
use x86_map::Map;

/// What `sites` is asked to do.
#[derive(Clone, Copy)]
pub struct SitesAsked<'a> {
    /// The name of the object.
    pub input: &'a str,
    /// The name that the object with its site lists is written to.
    pub output: &'a str,
    /// What the object is taken for.
    pub options: ListOptions,
    /// The opcode map by which its code is read.
    pub map: Map,
    /// The file of function names, where one is given. Of its names those of loose code count alone: there hints may be written
    /// that are refused elsewhere.
    pub names: Option<&'a str>,
}

/// What the words take the object for.
pub fn list_options(options: SiteOptions) -> ListOptions
    ensures { result ≡ list_options options }
{
    let SiteOptions { module } = options;
    ListOptions { module }
}
