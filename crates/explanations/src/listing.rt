//! The list of topics.

ghost use Rattle.std.specs.Prelude.{◌≡◌};
ghost use Rattle.explanations.specs.Topics.{AreAscending, AreTitled, AreTold, topics_text};

const TOPICS: &str = "\
objtool explain TOPIC tells what the rule or the refusal TOPIC means.

1  bad branch target
2  falls into another function
3  runs off the section
4  stack state mismatch: kept A, found B
5  return with modified stack: depth A
6  sibling call with modified stack: depth A
7  unsupported write of rsp
8  rbp written before it is saved
9  stack pointer lost
10  offset out of range: A
11  saved slot dropped
12  alternatives disagree at offset A
13  jump into an alternative site
14  unreachable instruction
15  return or context switch not allowed here
16  call into the middle of a function
17  function without size
18  restore without save
19  relocated stack offset
21  call without frame
31  indirect branch
32  naked return
41  call to NAME with user access on
42  return with user access on
43  return with user access off
44  user access turned on twice
45  user access turned off twice
46  safe function turns user access off
47  popf where user access is tracked
51  call to NAME leaves noinstr code
52  missing int3 after return
53  missing int3 after indirect jump
54  address taken without endbr
Compressed  section N: entry M: Compressed
HintBase  section N: entry M: HintBase
HintOffset  section N: entry M: HintOffset
HintSignal  section N: entry M: HintSignal
HintType  section N: entry M: HintType
Length  section N: entry M: Length
NoReloc  section N: entry M: NoReloc
NotBoundary  alternative N: NotBoundary
NotText  section N: entry M: NotText
Overlap  alternative N: Overlap
Replacement  alternative N: Replacement
Size  section N: entry M: Size
bad-bits  row N: bad bits
bad-function  symbol N: bad function
bad-length  section NAME: bad length N
bad-link  section N: bad link
bad-name  section N: bad name
bad-operation  bad operation at N
bad-record  frame record at N: bad record
bad-relocation  section N: bad relocation M
bad-slot  row N: bad slot: WHY
bad-symbol  symbol N: bad symbol
bad-table  section N: bad table
file-folder  NAME: Is a directory
file-full  NAME: No space left on device
file-no-folder  NAME: No such file or directory
file-not-a-folder  NAME: Not a directory
file-permission  NAME: Permission denied
file-read-only  NAME: Read-only file system
file-too-large  NAME: File too large
frame-relocation  bad relocation at N
frame-section  section N is a frame section
image-line  image line N: bad word
instruction-cut  PLACE: instruction cut after N bytes
instruction-too-long  PLACE: instruction too long
layout-line  layout line N: Word
longer  NAME is longer than N bytes
missing  NAME is missing
names-file  names file line N: bad word
no-function  no function NAME
no-section  no section NAME
no-text  section N: no text
not-a-boundary  list N: entry M: not a boundary
not-a-call  intra call N: not a call
not-a-function  unchecked N: not a function
not-a-site  static branch N: not a site
not-an-object  not an x86-64 relocatable file at byte N
not-ended  file K section N: not ended
not-placed  section N: not placed
opcode  PLACE: opcode outside the map: HEX
orc-section  section N is an ORC section
outside-the-file  section N: outside the file
overlaps  section N: overlaps M
rows-and-places  N rows, M places
site-list  section N is a site list
table  table: bad at byte N
too-many  too many sections: N
wraps  section N: wraps
";

/// The text that lists the topics: a heading, and a line for each topic with its title. Each topic is explained by a text
/// of its own, which begins with the title.
#[tactic(auto, unfolding(crate::specs::Topics::topics_text))]
pub fn topics() -> &'static str
    ensures text { result.now ≡ topics_text }
    ensures told { AreTold }
    ensures titled { AreTitled }
    ensures ascending { AreAscending }
{
    TOPICS
}
