ghost use Rattle.std.specs.Prelude.{◌≡◌, ◌==◌, ◌≤◌, ◌∷◌, length, option_map, position, IfOk, IfErr, OnOk};
ghost use Rattle.std.specs.FinSet as set;
ghost use Rattle.std.specs.List.{list_all};
ghost use Rattle.ot_base.specs.NamesFile.{first_word, is_name, is_name_byte, is_list_word, bytes_left, line_fault, lines, lines_in, rest_of, says_nothing, IsNamesFile};
ghost use Rattle.ot_base.specs.NameLists.{built_in, lists_with, with_line, with_name};
ghost use Rattle.ot_base.specs.ListsFault.{IsListsFault};

use crate::memory::NoMemory;
use crate::name_set::NameSet;
use std::alloc::{AllocError, Global};
use std::error::Error;
use std::fmt;
use std::marker::Model;

/// What is wrong with a line of a names file.
#[derive(Clone, Copy, Debug, PartialEq, Eq)]
pub enum ListsWhy {
    /// Its first word is none of `noreturn`, `uaccess`, `loose` and `switch`.
    Word,
    /// What follows that word isn't one name.
    Name,
}

/// Why a names file isn't read.
#[derive(Clone, Copy, Debug, PartialEq, Eq)]
pub enum ListsFault {
    /// The first faulty line, counted from 1.
    Line { line: u64, why: ListsWhy },
    /// Memory was wanted and not there.
    NoMemory,
}

impl fmt::Display for ListsWhy {
    ghost use Rattle.std.specs.Prelude.{Some};
    ghost use Rattle.ot_base.specs.ListsFault.{why_text};

    ghost output = { λ why. Some (why_text why) };

    fn fmt<W: fmt::Write>(&self, f: &mut fmt::Formatter<W>) -> fmt::Result {
        match self {
            ListsWhy::Word => write!(f, "bad word"),
            ListsWhy::Name => write!(f, "bad name"),
        }
    }
}

impl fmt::Display for ListsFault {
    ghost use Rattle.std.specs.Prelude.{Some};
    ghost use Rattle.ot_base.specs.ListsFault.{fault_text};

    ghost output = { λ fault. Some (fault_text fault) };

    fn fmt<W: fmt::Write>(&self, f: &mut fmt::Formatter<W>) -> fmt::Result {
        match self {
            ListsFault::Line { line, why } => write!(f, "names file line {line}: {why}"),
            ListsFault::NoMemory => write!(f, "no memory"),
        }
    }
}

impl Error for ListsFault {}

impl From<NoMemory> for ListsFault {
    ghost use Rattle.ot_base.specs.declared.lists.ListsFault.TheVariants.{NoMemory};
    ghost use Rattle.std.specs.Prelude.{◌≡◌};

    ghost from_gives = { λ _ fault. fault ≡ NoMemory };

    fn from(_want: NoMemory) -> ListsFault {
        ListsFault::NoMemory
    }
}

impl From<AllocError> for ListsFault {
    ghost use Rattle.ot_base.specs.declared.lists.ListsFault.TheVariants.{NoMemory};
    ghost use Rattle.std.specs.Prelude.{◌≡◌};

    ghost from_gives = { λ _ fault. fault ≡ NoMemory };

    fn from(_error: AllocError) -> ListsFault {
        ListsFault::NoMemory
    }
}

/// The functions of the kernel that never return.
const KERNEL_NEVER_RETURNING: [&str; 46] = [
    "panic",
    "do_exit",
    "make_task_dead",
    "kthread_exit",
    "__stack_chk_fail",
    "fortify_panic",
    "usercopy_abort",
    "__ubsan_handle_builtin_unreachable",
    "stop_this_cpu",
    "cpu_startup_entry",
    "rewind_stack_and_make_dead",
    "__fortify_panic",
    "__ia32_sys_exit",
    "__ia32_sys_exit_group",
    "__kunit_abort",
    "__module_put_and_kthread_exit",
    "__reiserfs_panic",
    "__tdx_hypercall_failed",
    "__x64_sys_exit",
    "__x64_sys_exit_group",
    "arch_cpu_idle_dead",
    "bch2_trans_in_restart_error",
    "bch2_trans_restart_error",
    "bch2_trans_unlocked_error",
    "cpu_bringup_and_idle",
    "do_group_exit",
    "do_task_dead",
    "ex_handler_msr_mce",
    "hlt_play_dead",
    "hv_ghcb_terminate",
    "kthread_complete_and_exit",
    "kunit_try_catch_throw",
    "machine_real_restart",
    "mpt_halt_firmware",
    "nmi_panic_self_stop",
    "panic_smp_self_stop",
    "rest_init",
    "rust_begin_unwind",
    "rust_helper_BUG",
    "sev_es_terminate",
    "snp_abort",
    "start_kernel",
    "x86_64_start_kernel",
    "x86_64_start_reservations",
    "xen_cpu_bringup_again",
    "xen_start_kernel",
];

/// The functions of the kernel that may be called with user access on.
const KERNEL_ACCESS_SAFE: [&str; 7] = [
    "__fentry__",
    "rep_movs_alternative",
    "rep_stos_alternative",
    "__copy_user_nocache",
    "copy_mc_fragile",
    "copy_mc_enhanced_fast_string",
    "ftrace_likely_update",
];

/// The functions of the kernel that are checked as far as they can be followed.
const KERNEL_LOOSE: [&str; 9] = [
    "asm_exc_nmi",
    "entry_SYSCALL_compat",
    "return_to_handler",
    "rewind_stack_and_make_dead",
    "wakeup_long64",
    "sev_verify_cbit",
    "sme_encrypt_execute",
    "restore_registers",
    "srso_alias_safe_ret",
];

/// The functions of the kernel that switch tasks.
const KERNEL_SWITCHING: [&str; 1] = ["__switch_to_asm"];

/// Function names: those that never return, those that may be called with user access on, those that are checked as
/// far as they can be followed, and those that switch tasks.
#[derive(Drop)]
pub struct Lists {
    never_returning: NameSet,
    access_safe: NameSet,
    loose: NameSet,
    switching: NameSet,
}

impl Model for Lists {
    ghost use Rattle.ot_base.specs.NameLists as lists;

    ghost Value = { lists.NameLists };

    ghost coded = { lists.name_lists_code };

    ghost view = { λ l. record { never_returning = l.never_returning; access_safe = l.access_safe; loose = l.loose; switching = l.switching } };
}

impl Lists {
    /// The lists that are built in.
    pub fn built_in(alloc: Global) -> Result<Lists, NoMemory>
        ensures { IfOk result (λ lists. lists ≡ built_in) }
    {
        Ok(Lists {
            never_returning: NameSet::of(alloc, &KERNEL_NEVER_RETURNING)?,
            access_safe: NameSet::of(alloc, &KERNEL_ACCESS_SAFE)?,
            loose: NameSet::of(alloc, &KERNEL_LOOSE)?,
            switching: NameSet::of(alloc, &KERNEL_SWITCHING)?,
        })
    }

    /// The built-in lists with the names that a names file adds. Its lines end in LF, and the last may
    /// lack it. A line is empty, begins with `#`, or is `noreturn NAME`, `uaccess NAME`, `loose NAME` or
    /// `switch NAME`, where NAME has one or more bytes from 21 to 7E. The first other line is refused.
    pub fn parse(alloc: Global, bytes: &[u8]) -> Result<Lists, ListsFault>
        ensures ok { IfOk result (λ lists. lists ≡ lists_with bytes.now) }
        ensures grammar { OnOk result (IsNamesFile bytes.now) }
        ensures line { IfErr result (IsListsFault bytes.now) }
    {
        let mut lists = Lists::built_in(alloc)?;
        let mut rest = Some(bytes);
        let mut count = 0;
        while let Some(text) = rest {
            let (line, after) = split_line(text);
            count += 1;
            match line_fault(line) {
                Some(why) => return Err(ListsFault::Line { line: count, why }),
                None => lists.add(alloc, line)?,
            }
            rest = after;
        }
        Ok(lists)
    }

    /// Adds the name that a line adds.
    fn add(&mut self, alloc: Global, line: &[u8]) -> Result<(), NoMemory>
        ensures { OnOk result (self.new ≡ with_line self.old line.now) }
    {
        add_under(&mut self.never_returning, alloc, b"noreturn", line)?;
        add_under(&mut self.access_safe, alloc, b"uaccess", line)?;
        add_under(&mut self.loose, alloc, b"loose", line)?;
        add_under(&mut self.switching, alloc, b"switch", line)
    }

    /// Whether a function of this name never returns.
    pub fn never_returns(&self, name: &[u8]) -> bool
        ensures { result ≡ set.contains self.now.never_returning name.now }
    {
        self.never_returning.contains(name)
    }

    /// Whether a function of this name may be called with user access on.
    pub fn access_safe(&self, name: &[u8]) -> bool
        ensures { result ≡ set.contains self.now.access_safe name.now }
    {
        self.access_safe.contains(name)
    }

    /// Whether a function of this name is checked as far as it can be followed.
    pub fn is_loose(&self, name: &[u8]) -> bool
        ensures { result ≡ set.contains self.now.loose name.now }
    {
        self.loose.contains(name)
    }

    /// Whether a function of this name switches tasks.
    pub fn switches_tasks(&self, name: &[u8]) -> bool
        ensures { result ≡ set.contains self.now.switching name.now }
    {
        self.switching.contains(name)
    }
}

/// Adds a line's name to a list with this word, where it is the line's first word.
fn add_under(names: &mut NameSet, alloc: Global, word: &[u8], line: &[u8]) -> Result<(), NoMemory>
    ensures { OnOk result (names.new ≡ with_name word.now line.now names.old) }
{
    let (first, name) = split_word(line);
    if first == word {
        names.add(alloc, name)?;
    }
    Ok(())
}

/// Where a text's first line ends.
fn first_end(text: &[u8]) -> Option<usize>
    ensures { result ≡ position (λ b. b == 10) text.now }
{
    text.iter().position(|byte| *byte == b'\n')
}

/// A text's first line, and the text behind its LF, where it has one.
fn split_line(text: &[u8]) -> (&[u8], Option<&[u8]>)
    ensures line { lines text.now ≡ result.0.now ∷ lines_in (option_map (λ rest. rest.now) result.1) }
    ensures shorter { bytes_left (option_map (λ rest. rest.now) result.1) ≤ length text.now }
{
    match first_end(text) {
        Some(end) => (&text[..end], Some(&text[end + 1..])),
        None => (text, None),
    }
}

/// Where a line's first space is.
fn first_space(line: &[u8]) -> Option<usize>
    ensures { result ≡ position (λ b. b == 32) line.now }
{
    line.iter().position(|byte| *byte == b' ')
}

/// A line's first word, and what follows the space behind it.
fn split_word(line: &[u8]) -> (&[u8], &[u8])
    ensures word { result.0.now ≡ first_word line.now }
    ensures rest { result.1.now ≡ rest_of line.now }
{
    match first_space(line) {
        Some(space) => (&line[..space], &line[space + 1..]),
        None => (line, &[]),
    }
}

/// Whether a line is empty or begins with `#`.
fn says_nothing(line: &[u8]) -> bool
    ensures { result ≡ says_nothing line.now }
{
    line.is_empty() || line[0] == b'#'
}

/// Whether this is the word of one of the lists.
fn is_list_word(word: &[u8]) -> bool
    ensures { result ≡ is_list_word word.now }
{
    word == b"noreturn".as_slice()
        || word == b"uaccess".as_slice()
        || word == b"loose".as_slice()
        || word == b"switch".as_slice()
}

/// Whether a name may have this byte.
fn is_name_byte(byte: u8) -> bool
    ensures { result ≡ is_name_byte byte }
{
    0x21 <= byte && byte <= 0x7e
}

/// Whether a name may have each of these bytes.
fn are_name_bytes(bytes: &[u8]) -> bool
    ensures { result ≡ list_all is_name_byte bytes.now }
{
    bytes.iter().all(|byte| is_name_byte(*byte))
}

/// Whether these are one or more bytes from 21 to 7E.
fn is_name(name: &[u8]) -> bool
    ensures { result ≡ is_name name.now }
{
    !name.is_empty() && are_name_bytes(name)
}

/// What is wrong with a line of a names file.
#[tactic(auto, unfolding(crate::specs::NamesFile::line_fault))]
fn line_fault(line: &[u8]) -> Option<ListsWhy>
    ensures { result ≡ line_fault line.now }
{
    if says_nothing(line) {
        return None;
    }
    let (word, name) = split_word(line);
    if !is_list_word(word) {
        Some(ListsWhy::Word)
    } else if is_name(name) {
        None
    } else {
        Some(ListsWhy::Name)
    }
}
