//! Tests of command lines: the request that the program understands, or what it prints.
use crate::tape::Tape;
use std::alloc::{AllocError, Global};
use std::fmt;
use std::test::Fail;
use tape_run::Content;
use tape_tool::{Named, Order, WriteOrder, call_of};
use tape_tool_calls::{follow_in, words_of};

/// Command lines, each before its request as `Request` prints it, on the same line or the next.
const REQUESTS: &str = "
    list => list offsets=false json=false none
    list a.tap => list offsets=false json=false a.tap
    list --offsets a.tap => list offsets=true json=false a.tap
    list --json a.tap => list offsets=false json=true a.tap
    list -- -odd.tap => list offsets=false json=false -odd.tap
    list a.tap --explain => explained: list offsets=false json=false a.tap
    --explain list a.tap => explained: list offsets=false json=false a.tap
    list a.tap --no-explain => bare: list offsets=false json=false a.tap
    list a.tap --no-explain --explain => bare: list offsets=false json=false a.tap
    show a.tap 2 => show a.tap 2-2 raw=false ebcdic=false
    show a.tap 2 12 --raw --ebcdic => show a.tap 2-12 raw=true ebcdic=true
    check a.tap b.tap => check a.tap b.tap
    check a.tap --files-from l => check a.tap lines of l
    check --files-from l --null => check nulls of l
    check --files-from - => check lines of none
    check - => check -
    survey a.tap b.tap => survey Words a.tap b.tap
    survey --all a.tap => survey Full a.tap
    survey --all --tsv a.tap => survey Tsv a.tap
    survey --json a.tap => survey Json a.tap
    survey --files-from - --null -- -a => survey Words -a nulls of none
    extract ABC001 2 out a.tap b.tap
    => extract ABC001 2 out Lines stage=none again=false now=false a.tap b.tap
    extract AB 9999 out --again --stage kept --form raw --files-from l
    => extract AB     9999 out Raw stage=kept again=true now=false lines of l
    extract ABC001 1 out --form lines --now --null --files-from l a
    => extract ABC001 1 out Lines stage=none again=false now=true a nulls of l
    unpack dir a.tap b.tap
    => unpack dir Lines list=false salvage=false now=false set=none a.tap b.tap
    unpack dir a --form raw --set ABC001 --file 3 --file P* --list
    => unpack dir Raw list=true salvage=false now=false set=ABC001 file=3 file=P* a
    unpack dir a --form auto
    => unpack dir auto list=false salvage=false now=false set=none a
    unpack dir --salvage --now --files-from l
    => unpack dir Lines list=false salvage=true now=true set=none lines of l
    salvage ABC001 2 out a.tap => salvage ABC001 2 out blocks=false Lines now=false a.tap
    salvage ABC001 1 out --form raw --now a
    => salvage ABC001 1 out blocks=false Raw now=true a
    salvage ABC001 1 out --form blocks a b
    => salvage ABC001 1 out blocks=true Raw now=false a b
    stage kept => stage kept Lines damaged=false none
    stage kept out --form raw --damaged => stage kept Raw damaged=true out
    init dir ABC 12 => init dir ABC 12
    write dir ABC 9K A=a B=b
    => write dir ABC 9216 Counted 2048 offset=0 full=false Lines record=None date= 00000 A=a B=b
    write dir X1Z 100000 A=a --format F --record 80 --block 8000 --offset 4 --pad-full
    => write dir X1Z 100000 Fixed 8000 offset=4 full=true Lines record=Some(80) date= 00000 A=a
    write dir ABC 9000 A=a --format S --form raw --block +512 --offset 010
    => write dir ABC 9000 Spanned 512 offset=10 full=false Raw record=None date= 00000 A=a
    write dir ABC 9000 A=a --record +80
    => write dir ABC 9000 Counted 2048 offset=0 full=false Lines record=Some(80) date= 00000 A=a
    write dir ABC 40M A=a --format S
    => write dir ABC 41943040 Spanned 2048 offset=0 full=false Lines record=None date= 00000 A=a
    write dir ABC 3G A=a --format S
    => write dir ABC 3221225472 Spanned 2048 offset=0 full=false Lines record=None date= 00000 A=a
    write dir ABC 9000 A=a --format S --date 1985-12-31 --dry-run
    => dry: write dir ABC 9000 Spanned 2048 offset=0 full=false Lines record=None date= 85365 A=a
    write dir ABC 9000 A=a --format S --labels ebcdic
    => ebcdic: write dir ABC 9000 Spanned 2048 offset=0 full=false Lines record=None date= 00000 A=a
    write dir ABC 9000 A=a --format S --labels ascii
    => write dir ABC 9000 Spanned 2048 offset=0 full=false Lines record=None date= 00000 A=a
    write dir ABC 9000 A=a --format S --date 2000-02-29
    => write dir ABC 9000 Spanned 2048 offset=0 full=false Lines record=None date=000060 A=a
    merge out a.tap b.tap => merge out log=none a.tap b.tap
    merge out --log kept a --files-from l => merge out log=kept a lines of l
    compare a.tap b.tap => compare json=false a.tap b.tap
    convert a.tap b.aws => convert a.tap image=b.aws None resync=false
    convert a.tap --format e11 => convert a.tap image=none Some(E11) resync=false
    convert --resync a.tap => convert a.tap image=none None resync=true
    compare --json a.tap b.tap => compare json=true a.tap b.tap
";

/// Texts, each after the first text.
#[derive(Clone, Copy)]
struct Texts<'a>(&'static str, &'a [&'a str]);

impl fmt::Display for Texts<'_> {
    fn fmt<W: fmt::Write>(&self, f: &mut fmt::Formatter<W>) -> fmt::Result {
        for text in self.1 {
            write!(f, "{}{text}", self.0)?;
        }
        Ok(())
    }
}

/// The names of images, and their list.
#[derive(Clone, Copy)]
struct Images<'a>(&'a Named<'a>);

impl fmt::Display for Images<'_> {
    fn fmt<W: fmt::Write>(&self, f: &mut fmt::Formatter<W>) -> fmt::Result {
        write!(f, "{}", Texts(" ", self.0.words.as_slice()))?;
        match &self.0.list {
            Some(list) => {
                let kind = if list.null { "nulls" } else { "lines" };
                write!(f, " {kind} of {}", list.file.unwrap_or("none"))
            }
            None => Ok(()),
        }
    }
}

/// Returns the characters of an identifier or a prefix.
fn id(bytes: &[u8]) -> &str {
    str::from_utf8(bytes).unwrap_or("")
}

/// A request as text.
#[derive(Clone, Copy)]
struct Request<'a>(&'a Order<'a>);

impl fmt::Display for Request<'_> {
    fn fmt<W: fmt::Write>(&self, f: &mut fmt::Formatter<W>) -> fmt::Result {
        match self.0 {
            Order::List(order) => {
                let (offsets, json) = (order.offsets, order.json);
                let image = order.image.unwrap_or("none");
                write!(f, "list offsets={offsets} json={json} {image}")
            }
            Order::Show(order) => {
                write!(f, "show {} {}-{} ", order.image, order.first, order.last)?;
                write!(f, "raw={} ebcdic={}", order.raw, order.ebcdic)
            }
            Order::Check(images, None, _) => write!(f, "check{}", Images(images)),
            Order::Check(images, Some(form), _) => write!(f, "survey {form:?}{}", Images(images)),
            Order::Stage(order) => {
                write!(f, "stage {} {:?} ", order.stage, order.form)?;
                write!(
                    f,
                    "damaged={} {}",
                    order.damaged,
                    order.out.unwrap_or("none")
                )
            }
            Order::Init(order) => {
                let prefix = id(&order.prefix.characters);
                write!(f, "init {} {prefix} {}", order.folder, order.count)
            }
            Order::Write(order) => write_write(f, order),
            Order::Merge(order) => {
                let (log, images) = (order.log.unwrap_or("none"), Images(&order.images));
                match order.out {
                    Some(out) => write!(f, "merge {out} log={log}{images}"),
                    None => write!(f, "compare json={}{images}", order.json),
                }
            }
            Order::Convert(order) => {
                let image = order.image.unwrap_or("none");
                let (out, format, resync) = (order.out, order.format, order.resync);
                write!(f, "convert {out} image={image} {format:?} resync={resync}")
            }
            order => write_recovery(f, order),
        }
    }
}

/// Writes a request to recover files.
fn write_recovery<W: fmt::Write>(f: &mut fmt::Formatter<W>, order: &Order<'_>) -> fmt::Result {
    match order {
        Order::Extract(order) => {
            let task = &order.task;
            let (set, stage) = (id(task.set_id.bytes()), task.stage.unwrap_or("none"));
            write!(
                f,
                "extract {set} {} {} {:?} ",
                task.file, task.out, task.form.form
            )?;
            write!(f, "stage={stage} again={} ", task.again)?;
            write!(f, "now={}{}", order.now, Images(&order.images))
        }
        Order::Unpack(order) => {
            write!(f, "unpack {} ", order.folder)?;
            match order.form {
                Some(form) => write!(f, "{form:?}")?,
                None => write!(f, "auto")?,
            }
            write!(f, " list={} ", order.list)?;
            write!(f, "salvage={} now={} ", order.salvage, order.now)?;
            write!(f, "set={}", order.set.unwrap_or("none"))?;
            let files = Texts(" file=", order.files.as_slice());
            write!(f, "{files}{}", Images(&order.images))
        }
        Order::Salvage(order) => {
            let task = &order.task;
            let is_blocks = matches!(task.content, Content::Blocks);
            write!(f, "salvage {} {} ", id(task.set_id.bytes()), task.file)?;
            write!(f, "{} blocks={is_blocks} {:?} ", order.out, task.form)?;
            write!(f, "now={}{}", order.now, Images(&order.images))
        }
        _ => Ok(()),
    }
}

/// Writes a request to `write`.
fn write_write<W: fmt::Write>(f: &mut fmt::Formatter<W>, order: &WriteOrder<'_>) -> fmt::Result {
    let prefix = id(&order.prefix.characters);
    write!(
        f,
        "{}{}write {} ",
        if order.dry { "dry: " } else { "" },
        if order.ebcdic { "ebcdic: " } else { "" },
        order.folder
    )?;
    write!(f, "{prefix} {} {:?} ", order.capacity, order.format)?;
    write!(
        f,
        "{} offset={} full={} ",
        order.block, order.offset, order.pad_full
    )?;
    write!(f, "{:?} record={:?} ", order.form, order.record)?;
    write!(
        f,
        "date={}{}",
        id(order.created.bytes()),
        Texts(" ", order.files.as_slice())
    )
}

/// Returns a request as text, after whether explanations are requested.
fn text_of(
    alloc: Global,
    explained: Option<bool>,
    order: &Order<'_>,
) -> Result<String, AllocError> {
    let explained = match explained {
        Some(true) => "explained: ",
        Some(false) => "bare: ",
        None => "",
    };
    let request = Request(order);
    format!(in alloc; "{explained}{request}")
}

/// Fails unless the request in the command line `line` is `wanted`.
fn understands(rt: &HostRuntime, line: &str, wanted: &str) -> Result<(), Fail> {
    let words = words_of(rt.alloc(), line)?;
    let call = call_of(rt.alloc(), words.as_slice())?;
    let text = text_of(rt.alloc(), call.explained, &call.order)?;
    if text.as_str() == wanted {
        return Ok(());
    }
    Err(Fail::from(format!(in rt.alloc(); "{line}: {text}")?))
}

#[test]
fn requests(rt: HostRuntime) -> Result<(), Fail> {
    let mut asked = String::new(rt.alloc());
    for line in REQUESTS.lines() {
        let line = line.trim_start();
        let Some((words, wanted)) = line.split_once("=> ") else {
            asked = line.to_string(rt.alloc())?;
            continue;
        };
        if !words.is_empty() {
            asked = words.to_string(rt.alloc())?;
        }
        understands(&rt, asked.as_str(), wanted)?;
    }
    Ok(())
}

/// Command lines that run no command, and parts of what is printed.
const SAID: &str = "
    2:  => requires a subcommand
    2: lost => unrecognized subcommand 'lost'
    2: list a.tap b.tap => do echo \"$f\"; tape list \"$f\"; done
    ~ Usage: tape list [--offsets | --json] [IMAGE]
    2: list - => omit IMAGE to read standard input
    2: list -- - => write './-' for a file of that name
    2: list --all => unexpected argument '--all' found
    ~ Usage: tape list [--offsets | --json] [IMAGE]
    0: --help
    | Usage: tape [OPTIONS] <COMMAND>
    0: --version
    | tape 0.1.0
    0: list --help
    | Usage: tape list [--offsets | --json] [IMAGE]
    0: check --help
    | --explain
    0: survey --help | compare --help | merge --help | extract --help | unpack --help
    0: salvage --help | stage --help | init --help | write --help
    0: help list
    | zcat reel.tap.gz | tape list
    2: init '' ABC 2 => DIR is empty: write '.'
    2: write '' ABC 100000 A=B => DIR is empty: write '.'
    2: check --null a.tap => --files-from <LIST>
    2: extract ABC001 1 - a.tap => write './-' for a file of that name
    2: check - a.tap - => standard input can be read only once
    2: survey --files-from - - => A file of this name is './-'
    # The message contains the value that is not accepted.
    2: extract TOOLONG 1 a.txt a.tap
    ~ error: invalid value \"TOOLONG\": SET must have 1 to 6 characters
    2: salvage TOOLONG 1 a.txt a.tap => error: invalid value \"TOOLONG\": SET must have
    2: init . ab 2 => error: invalid value \"ab\": PRE must be three characters
    2: write . ABC 40X A=B => error: invalid value \"40X\": CAPACITY must be a number of bytes
    2: write . ABC 9000 A=B --date 1985-02-29 => error: invalid value \"1985-02-29\": --date must be
    2: write . ABC 4G A=B => error: invalid value \"4G\": CAPACITY must be a number of bytes
    2: write . ABCD 100000 A=B => error: invalid value \"ABCD\": PRE must be three characters
    # It also says what was expected, if that is a number.
    2: extract ABC001 one a.txt a.tap
    ~ error: invalid value \"one\": FILE must be a number from 1 to 9999
    2: extract ABC001 10000 a.txt a.tap
    ~ error: invalid value \"10000\": FILE must be a number from 1 to 9999
    2: salvage ABC001 0 a.txt a.tap
    ~ error: invalid value \"0\": FILE must be a number from 1 to 9999
    2: init . ABC 1000 => error: invalid value \"1000\": COUNT must be a number from 1 to 999
    2: write . ABC 100000 A=B --block 2K
    ~ error: invalid value \"2K\": --block must be a number from 0 to 4294967295
    2: write . ABC 100000 A=B --offset 256
    ~ error: invalid value \"256\": --offset must be a number from 0 to 255
    # No argument can control the terminal when it is printed.
    2: a\u{1b}b\\ => unrecognized subcommand 'a\\u001Bb\\\\'
    2: init . a\u{202e} 2 => invalid value \"a\\u202E\": PRE
";

#[test]
fn help_and_mistakes(rt: HostRuntime) -> Result<(), Fail> {
    follow_in(&rt, &Tape, "words", SAID)
}
