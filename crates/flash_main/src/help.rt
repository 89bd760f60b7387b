//! What the program says of itself.

ghost use Rattle.std.specs.Prelude.{◌≡◌, ◌⊎◌};
ghost use Rattle.std.specs.Option.{option_copied};
ghost use Rattle.io_edge.specs.Writing.{WritesAll, WritesSome};
ghost use Rattle.flash_main.specs.Asking.{text_asked};

use flash_run::Word;
use io_edge::{Sink, write_all};

/// How the program is used.
const HELP: &str = "\
usage: flash_main tp T=<K> P=<Pa> z=<parts> names=<names> tol=<n> budget=<n>
                     [kappa=76|78] < table
       flash_main cert <the words of tp> < table
       flash_main check < certificate
       flash_main bubble-p T=<K> lo=<Pa> hi=<Pa> width=<Pa> <z to kappa, as tp> < table
       flash_main dew-p <the words of bubble-p> < table
       flash_main bubble-t P=<Pa> lo=<K> hi=<K> width=<K> <z to kappa, as tp> < table
       flash_main dew-t <the words of bubble-t> < table
       flash_main --help
       flash_main --version

tp     flashes a feed at a temperature and a pressure by the equation of Peng and
       Robinson, and prints its phases, an upper bound of their energy, and a gap: no
       division of the feed into phases has an energy that is lower by more than the gap.
cert   flashes so, and prints the certificate of its answer, open ones too.
check  reads a certificate and prints whether it holds. All is computed anew: what is
       accepted has the stated energy and gap, whatever made the certificate.
bubble-p, bubble-t, dew-p, dew-t
       search between two pressures, or two temperatures, for the boundary between one
       phase, liquid (bubble) or vapour (dew), and several. Both ends of what is printed
       are certified, one as divided into phases and the other as one phase.

Words, in any order and each of them once; only kappa may be left out. check takes none:
  T=300.15         temperature in K, 50 to 1500, with up to 3 places
  P=1000000        pressure in Pa, 1000 to 100000000
  lo=100 hi=320    the ends of a search, in Pa or K, lo below hi
  width=0.1        the most that the printed ends differ, in Pa or K, above 0
  z=1,0            parts of the feed, one to four whole numbers
  names=a,b        the components of the parts
  tol=1024         tolerance in 2^-20 bit, 128 to 1048576
  budget=200000    the most units of work, 1 to 10000000
  kappa=76         the edition of kappa: 76 for Peng and Robinson 1976, which is meant
                   without this word, 78 for Robinson and Peng 1978

The table stands on standard input: comma-separated records of six fields, no header.
  comp,<name>,<Tc in K>,<Pc in Pa>,<acentric factor>,
  k,<name>,<name>,<interaction>,,
  cp,<name>,<a>,<b>,<c>,<d>      heat capacity in J/(mol K), by powers of T/(1000 K)

Example:
  printf 'comp,a,300,1000000,0,\\n' | \\
      flash_main tp T=300 P=1000000 z=1 names=a tol=1024 budget=200000

Status: 0 closed, accepted, or a bracket; 2 words, 3 table, 4 case refused; 5 open, the
budget or the grid was spent; 6 reading, 7 writing failed; 8 want of memory; 9 the
certificate is refused; 10 the ends of a search aren't of the two wanted kinds; 11 the
table or the certificate is too long.

A refusal names the first fault. Words, records, fields, components, lines, letters and
leaves count from 1, the command being word 1; <wrong> is Empty, Sign, Digit, Places or
TooLarge.
  refused words   NoCommand; Unknown, Twice, Range or Count <word>;
                  Value <word> <wrong>; Missing <key>
  refused table   Fields, Utf8, Kind, UnknownName, Twice or TooMany <record>;
                  Range <record> <field>; Number <record> <field> <wrong>
  refused case    NoName <name>; BRange; BRatio; MRange <component>;
                  ARange <component> <component>; of a search, then at=<place>
  refused certificate
                  Head; Line <line>; Tree <letter>; Cut; Extra <byte>; BadParams;
                  BadBalance <component>; BadEnergy; BadGap; BadLeaf <leaf>
  refused read    standard input couldn't be read (status 6)
  refused long    the table has more than 4194304 bytes, or the certificate more than
                  67108864 (status 11)
";

/// The version of the program.
const VERSION: &str = "hizbruk 0.1\n";

/// The text that is asked for instead of a run, by one word alone: the help or the version.
pub fn text_for(words: &Vec<Word>) -> Option<&'static str>
    ensures { option_copied result ≡ text_asked HELP.now VERSION.now words.now.items }
{
    let [word] = words.as_slice() else {
        return None;
    };
    if word.bytes() == b"--help".as_slice() {
        Some(HELP)
    } else if word.bytes() == b"--version".as_slice() {
        Some(VERSION)
    } else {
        None
    }
}

/// Writes a text that the program says of itself. The status is 0, or 7 where the text wasn't written whole.
pub fn tell<K: Sink>(sink: &mut K, text: &str) -> u8
    ensures status { (result ≡ 0) ⊎ (result ≡ 7) }
    ensures whole { result ≡ 0 → WritesAll text.now
        (K.held sink.old) (K.held sink.new) (K.faults sink.old) (K.faults sink.new) }
    ensures cut { result ≡ 7 → WritesSome text.now
        (K.held sink.old) (K.held sink.new) (K.faults sink.old) (K.faults sink.new) }
{
    match write_all(sink, text.as_bytes()) {
        Ok(()) => 0,
        Err(_) => 7,
    }
}
