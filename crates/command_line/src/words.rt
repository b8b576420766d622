//! The words of a command line, by clap. Each function but `right_words` fails only when out of memory.
ghost use Rattle.std.specs.Prelude.{◌≡◌, IfOk, None, Some, codes, false, map, option_map, true};
ghost use Rattle.clap.specs.Matches.{first_value, found_of, matched_of, one_text, raw_values};

use clap::{Arg, ArgAction, ArgGroup, ArgMatches, Command, Error, value_parser};
use serving_clients::{IDLE_SECONDS, PATIENCE_SECONDS, PLACES};
use std::alloc::{AllocError, Global};

// The last line of the help of `serve`.
const SERVE_EXAMPLE: &str = "Example: queue_sites serve 2 5038 admin s3 sales support";

// The last line of the help of `site`.
const SITE_EXAMPLE: &str =
    "Example: queue_sites site 0 admin sales support --secret-file secret --link-secret-file links \
    --store site-0.db --links 10.0.0.1:7038 --peer 10.0.0.2:7038";

// The last line of the help of `audit`.
const AUDIT_EXAMPLE: &str = "Example: queue_sites audit site-0.db site-1.db > events";

// How many clients a site answers at once, and how long they may be silent, where `site` is given nothing else.
const SITE_PLACES: &str = "16";

const SITE_IDLE_SECONDS: &str = "600";

// The words of `script`: the number of sites, and the queues.
#[derive(Drop)]
pub(crate) struct ScriptWords<'a> {
    pub sites: u16,
    pub queues: Vec<&'a str>,
}

// Where the secret of clients comes from.
#[derive(Clone, Copy)]
pub(crate) enum SecretWord<'a> {
    // It is this word.
    Here(&'a str),
    // It is the first line of the file with this name.
    InFile(&'a str),
}

// The words about the sessions of clients. `idle` and `patience` are in seconds.
#[derive(Clone, Copy)]
pub(crate) struct SessionWords<'a> {
    pub user: &'a str,
    pub secret: SecretWord<'a>,
    pub greeting: Option<&'a str>,
    pub idle: u64,
    pub patience: u64,
    pub places: u16,
    pub is_verbose: bool,
}

// The words about stores: the path of one or of their folder, and whether they keep rows.
#[derive(Clone, Copy)]
pub(crate) struct StoreWords<'a> {
    pub path: Option<&'a str>,
    pub keeps: bool,
}

// The words of `serve`.
#[derive(Drop)]
pub(crate) struct ServeWords<'a> {
    pub sites: u16,
    pub port: u16,
    pub address: &'a str,
    pub store: StoreWords<'a>,
    pub session: SessionWords<'a>,
    pub queues: Vec<&'a str>,
}

// The words of `site`.
#[derive(Drop)]
pub(crate) struct SiteWords<'a> {
    pub number: u16,
    pub clients: &'a str,
    pub links: &'a str,
    pub peers: Vec<&'a str>,
    pub link_secret: &'a str,
    pub store: StoreWords<'a>,
    pub session: SessionWords<'a>,
    pub queues: Vec<&'a str>,
}

// The words of `steps`.
#[derive(Clone, Copy)]
pub(crate) struct StepsWords<'a> {
    pub path: &'a str,
    pub frames: bool,
}

// The defaults of options of sessions, as text.
#[derive(Clone, Copy)]
struct SessionDefaults<'a> {
    idle: &'a str,
    patience: &'a str,
    places: &'a str,
}

// The defaults of `serve`, as text. The patience is that of `site`, too.
#[derive(Drop)]
pub(crate) struct Defaults {
    idle: String,
    patience: String,
    places: String,
}

// The words of a command line that clap accepts.
#[derive(Drop)]
pub(crate) enum CommandWords<'a> {
    Script(ScriptWords<'a>),
    Serve(ServeWords<'a>),
    Site(SiteWords<'a>),
    // The files of stores.
    Audit(Vec<&'a str>),
    Steps(StepsWords<'a>),
}

impl Defaults {
    // The defaults of `serve`.
    fn of_serve(&self) -> SessionDefaults<'_> {
        SessionDefaults {
            idle: self.idle.as_str(),
            patience: self.patience.as_str(),
            places: self.places.as_str(),
        }
    }

    // The defaults of `site`: 16 places and 600 seconds of silence; the patience is that of `serve`.
    fn of_site(&self) -> SessionDefaults<'_> {
        SessionDefaults {
            idle: SITE_IDLE_SECONDS,
            patience: self.patience.as_str(),
            places: SITE_PLACES,
        }
    }
}

// The defaults of `serve`, as text. It fails only when out of memory.
pub(crate) fn default_texts(alloc: Global) -> Result<Defaults, AllocError> {
    let idle = format!(in alloc; "{IDLE_SECONDS}")?;
    let patience = format!(in alloc; "{PATIENCE_SECONDS}")?;
    let places = format!(in alloc; "{PLACES}")?;
    Ok(Defaults {
        idle,
        patience,
        places,
    })
}

// Whether a word before `--` names a file of the secret, so that the command line has no secret.
fn names_secret_file(words: &[String]) -> bool {
    for word in words {
        match word.as_str() {
            "--" => return false,
            "--secret-file" => return true,
            other if other.starts_with("--secret-file=") => return true,
            _ => {}
        }
    }
    false
}

// The words of a command line that clap accepts, the program's name first. Errors are clap's: words that are wrong, a wish for help or
// version, out of memory.
pub(crate) fn right_words<'a>(
    alloc: Global,
    words: &'a [String],
    defaults: &'a Defaults,
) -> Result<CommandWords<'a>, Error> {
    let is_in_file = names_secret_file(words);
    let matches = command(alloc, defaults, is_in_file)?.try_get_matches_from(words)?;
    let found = words_of(alloc, &matches);
    drop(matches);
    Ok(found?)
}

// The words of the subcommand that was found; of `script` without any if none was, which clap rules out. It fails only when out of memory.
fn words_of<'a>(alloc: Global, matches: &ArgMatches<'a>) -> Result<CommandWords<'a>, AllocError> {
    if let Some(serve) = matches.subcommand_matches("serve") {
        return Ok(CommandWords::Serve(serve_words(alloc, serve)?));
    }
    if let Some(site) = matches.subcommand_matches("site") {
        return Ok(CommandWords::Site(site_words(alloc, site)?));
    }
    if let Some(audit) = matches.subcommand_matches("audit") {
        return Ok(CommandWords::Audit(strings_of(alloc, audit, "FILE")?));
    }
    if let Some(steps) = matches.subcommand_matches("steps") {
        return Ok(CommandWords::Steps(steps_words(steps)));
    }
    match matches.subcommand_matches("script") {
        Some(script) => Ok(CommandWords::Script(script_words(alloc, script)?)),
        None => Ok(CommandWords::Script(ScriptWords {
            sites: 0,
            queues: Vec::new(alloc),
        })),
    }
}

// The words of `script`.
fn script_words<'a>(alloc: Global, script: &ArgMatches<'a>) -> Result<ScriptWords<'a>, AllocError> {
    Ok(ScriptWords {
        sites: script.get_one::<u16>("SITES").unwrap_or(0),
        queues: strings_of(alloc, script, "QUEUE")?,
    })
}

// The words about sessions. What clap requires is there; else it would be 0 or empty.
fn session_words<'a>(matches: &ArgMatches<'a>) -> SessionWords<'a> {
    let secret = match matches.get_str("secret-file") {
        Some(file) => SecretWord::InFile(file),
        None => SecretWord::Here(matches.get_str("SECRET").unwrap_or("")),
    };
    SessionWords {
        user: matches.get_str("USER").unwrap_or(""),
        secret,
        greeting: matches.get_str("greeting"),
        idle: matches.get_one::<u64>("idle").unwrap_or(0),
        patience: matches.get_one::<u64>("patience").unwrap_or(0),
        places: matches.get_one::<u16>("sessions").unwrap_or(0),
        is_verbose: matches.get_flag("verbose"),
    }
}

// The words about stores.
fn store_words<'a>(matches: &ArgMatches<'a>) -> StoreWords<'a>
    ensures path { option_map (λ path. path.now) result.path
        ≡ first_value (found_of matches.now) (codes "store") }
    ensures keeps { one_text (found_of matches.now) (codes "keep") ≡ Some (codes "true")
        → result.keeps ≡ true }
    ensures drops { one_text (found_of matches.now) (codes "keep") ≡ Some (codes "false")
        → result.keeps ≡ false }
{
    StoreWords {
        path: matches.get_str("store"),
        keeps: matches.get_flag("keep"),
    }
}

// The words of `serve`.
fn serve_words<'a>(alloc: Global, serve: &ArgMatches<'a>) -> Result<ServeWords<'a>, AllocError> {
    Ok(ServeWords {
        sites: serve.get_one::<u16>("SITES").unwrap_or(0),
        port: serve.get_one::<u16>("PORT").unwrap_or(0),
        address: serve.get_str("bind").unwrap_or(""),
        store: store_words(serve),
        session: session_words(serve),
        queues: strings_of(alloc, serve, "QUEUE")?,
    })
}

// The words of `site`.
fn site_words<'a>(alloc: Global, site: &ArgMatches<'a>) -> Result<SiteWords<'a>, AllocError>
    ensures clients { (text : _) → first_value (found_of site.now) (codes "clients") ≡ Some text
        → IfOk result (λ it. it.clients.now ≡ text) }
    ensures links { (text : _) → first_value (found_of site.now) (codes "links") ≡ Some text
        → IfOk result (λ it. it.links.now ≡ text) }
    ensures peers { (found : _) → matched_of (found_of site.now) (codes "peer") ≡ Some found
        → IfOk result (λ it. map (λ peer. peer.now) it.peers.items ≡ raw_values found) }
{
    let queues = strings_of(alloc, site, "QUEUE")?;
    let peers = match strings_of(alloc, site, "peer") {
        Ok(peers) => peers,
        Err(error) => {
            drop(queues);
            return Err(error);
        }
    };
    Ok(SiteWords {
        number: site.get_one::<u16>("NUMBER").unwrap_or(0),
        clients: site.get_str("clients").unwrap_or(""),
        links: site.get_str("links").unwrap_or(""),
        peers,
        link_secret: site.get_str("link-secret-file").unwrap_or(""),
        store: store_words(site),
        session: session_words(site),
        queues,
    })
}

// The words of `steps`.
fn steps_words<'a>(steps: &ArgMatches<'a>) -> StepsWords<'a>
    ensures path { (text : _) → first_value (found_of steps.now) (codes "FILE") ≡ Some text
        → result.path.now ≡ text }
    ensures frames { one_text (found_of steps.now) (codes "frames") ≡ Some (codes "true")
        → result.frames ≡ true }
    ensures words { one_text (found_of steps.now) (codes "frames") ≡ Some (codes "false")
        → result.frames ≡ false }
{
    StepsWords {
        path: steps.get_str("FILE").unwrap_or(""),
        frames: steps.get_flag("frames"),
    }
}

// The words of an argument that may stand several times, in order; none if it doesn't stand. It fails only when out of memory.
fn strings_of<'a>(
    alloc: Global,
    matches: &ArgMatches<'a>,
    name: &str,
) -> Result<Vec<&'a str>, AllocError>
    ensures { (found : _) → matched_of (found_of matches.now) name.now ≡ Some found
        → IfOk result (λ words. map (λ word. word.now) words.items ≡ raw_values found) }
{
    let mut words = Vec::new(alloc);
    for word in matches.get_strs(name).unwrap_or(&[]) {
        words.push(*word)?;
    }
    Ok(words)
}

// The argument for a number of sites or of a site, from `least` to `most`.
fn sites<'a>(alloc: Global, name: &'a str, help: &'a str, least: i64, most: i64) -> Arg<'a> {
    Arg::new(alloc, name)
        .help(help)
        .required(true)
        .value_parser(value_parser!(u16).range(least..=most))
}

// The argument for the port of site 0.
fn port<'a>(alloc: Global) -> Arg<'a> {
    Arg::new(alloc, "PORT")
        .help("The port of site 0, 1 to 65528; site 1 has the next one, and so on")
        .required(true)
        .value_parser(value_parser!(u16).range(1..=65_528))
}

// The argument for a word that a client logs in with.
fn login_word<'a>(alloc: Global, name: &'a str, help: &'a str) -> Arg<'a> {
    Arg::new(alloc, name).help(help).required(true)
}

// An option that has a value.
fn option<'a>(alloc: Global, name: &'a str, value: &'a str, help: &'a str) -> Arg<'a> {
    Arg::new(alloc, name)
        .long(name)
        .value_name(value)
        .help(help)
}

// An option that has no value.
fn flag<'a>(alloc: Global, name: &'a str, help: &'a str) -> Arg<'a> {
    Arg::new(alloc, name)
        .long(name)
        .action(ArgAction::SetTrue)
        .help(help)
}

// The argument for the names of queues: one or more.
fn queues<'a>(alloc: Global) -> Arg<'a> {
    Arg::new(alloc, "QUEUE")
        .help("The names of the queues, in their order")
        .required(true)
        .num_args(1..)
        .action(ArgAction::Append)
}

// The subcommand `script`.
fn script<'a>(alloc: Global) -> Result<Command<'a>, AllocError> {
    Command::new(alloc, "script")
        .about("Runs a script from standard input")
        .arg(sites(alloc, "SITES", "How many sites there are, 1 to 64", 1, 64))?
        .arg(queues(alloc))
}

// The argument for the files of stores: one or more.
fn files<'a>(alloc: Global) -> Arg<'a> {
    Arg::new(alloc, "FILE")
        .help("The stores of all sites, 1 to 64 files in any order")
        .required(true)
        .num_args(1..)
        .action(ArgAction::Append)
}

// The subcommand `audit`.
fn audit<'a>(alloc: Global) -> Result<Command<'a>, AllocError> {
    Command::new(alloc, "audit")
        .about("Writes one list of events that explains the stores of all sites, as a script")
        .after_help(AUDIT_EXAMPLE)
        .arg(files(alloc))
}

// The subcommand `steps`.
fn steps<'a>(alloc: Global) -> Result<Command<'a>, AllocError> {
    let file = Arg::new(alloc, "FILE")
        .help("The file of the store")
        .required(true);
    Command::new(alloc, "steps")
        .about("Writes the steps of a store in words")
        .arg(file)?
        .arg(flag(alloc, "frames", "Writes each frame in hexadecimal, too"))
}

// An option that has a value, which has a default.
fn number<'a>(
    alloc: Global,
    name: &'a str,
    value: &'a str,
    help: &'a str,
    default: &'a str,
) -> Arg<'a> {
    option(alloc, name, value, help).default_value(default)
}

// Adds the options about the sessions of clients. The patience is hidden: tests need less than half a minute.
fn push_session_options<'a>(
    alloc: Global,
    args: &mut Vec<Arg<'a>>,
    defaults: SessionDefaults<'a>,
) -> Result<(), AllocError> {
    let idle = "How long a client may be silent; 0 for ever";
    let sessions = "How many clients each site answers at once, 1 to 64";
    let verbose = "Logs clients that log in, and those of them that leave";
    push(
        args,
        option(alloc, "greeting", "TEXT", "The line that greets a client"),
    )?;
    push(
        args,
        number(alloc, "idle", "SECONDS", idle, defaults.idle).value_parser(value_parser!(u64)),
    )?;
    push(
        args,
        number(alloc, "sessions", "N", sessions, defaults.places).value_parser(value_parser!(
            u16
        ).range(1..=64)),
    )?;
    push(args, flag(alloc, "verbose", verbose))?;
    push(
        args,
        number(alloc, "patience", "SECONDS", "", defaults.patience)
            .value_parser(value_parser!(u64).range(1..=86_400))
            .hide(true),
    )?;
    Ok(())
}

// Adds an argument.
fn push<'a>(args: &mut Vec<Arg<'a>>, arg: Arg<'a>) -> Result<(), AllocError> {
    args.push(arg)?;
    Ok(())
}

// Adds the option of a store with this value, and the flag that the store keeps rows.
fn push_store_options<'a>(
    alloc: Global,
    args: &mut Vec<Arg<'a>>,
    value: &'a str,
    help: &'a str,
) -> Result<(), AllocError> {
    let keep = "Rows that a store no longer needs are moved to a second table, for audits";
    push(args, option(alloc, "store", value, help))?;
    push(args, flag(alloc, "keep", keep))?;
    Ok(())
}

// Adds the other options of `serve`.
fn push_serve_options<'a>(alloc: Global, args: &mut Vec<Arg<'a>>) -> Result<(), AllocError> {
    let bind = "The address that is listened on";
    let secret = "The file whose first line is the secret, in place of SECRET";
    let store =
        "The folder of the stores: that of site K is the file site-K.db, which is made if it is missing";
    push(args, number(alloc, "bind", "ADDRESS", bind, "127.0.0.1"))?;
    push(args, option(alloc, "secret-file", "FILE", secret))?;
    push_store_options(alloc, args, "FOLDER", store)
}

// Adds the other options of `site`.
fn push_site_options<'a>(alloc: Global, args: &mut Vec<Arg<'a>>) -> Result<(), AllocError> {
    let secret = "The file whose first line is the secret of the user";
    let shared = "The file whose first line is the secret that all sites share, 16 to 80 bytes";
    let store = "The file of the store, which is made if it is missing";
    let volatile = "Nothing is stored; the number of the site must never be used again";
    let peer = "Where another site accepts links; may be given 64 times";
    push(
        args,
        option(alloc, "secret-file", "FILE", secret).required(true),
    )?;
    push(
        args,
        option(alloc, "link-secret-file", "FILE", shared).required(true),
    )?;
    push_store_options(alloc, args, "FILE", store)?;
    push(args, flag(alloc, "volatile", volatile))?;
    push(
        args,
        number(
            alloc,
            "clients",
            "ADDRESS:PORT",
            "Where clients connect",
            "127.0.0.1:5038",
        ),
    )?;
    push(
        args,
        number(
            alloc,
            "links",
            "ADDRESS:PORT",
            "Where other sites connect",
            "127.0.0.1:7038",
        ),
    )?;
    push(
        args,
        option(alloc, "peer", "ADDRESS:PORT", peer).action(ArgAction::Append),
    )?;
    Ok(())
}

// The arguments of `serve`. If the secret is in a file the command line has no secret.
fn serve_args<'a>(
    alloc: Global,
    defaults: &'a Defaults,
    is_in_file: bool,
) -> Result<Vec<Arg<'a>>, AllocError> {
    let mut args = Vec::new(alloc);
    push_session_options(alloc, &mut args, defaults.of_serve())?;
    push_serve_options(alloc, &mut args)?;
    push(
        &mut args,
        sites(alloc, "SITES", "How many sites there are, 1 to 8", 1, 8),
    )?;
    push(&mut args, port(alloc))?;
    push(
        &mut args,
        login_word(alloc, "USER", "The user who may log in"),
    )?;
    if !is_in_file {
        push(
            &mut args,
            login_word(alloc, "SECRET", "The secret of the user"),
        )?;
    }
    push(&mut args, queues(alloc))?;
    Ok(args)
}

// The arguments of `site`.
fn site_args<'a>(alloc: Global, defaults: &'a Defaults) -> Result<Vec<Arg<'a>>, AllocError> {
    let mut args = Vec::new(alloc);
    push_session_options(alloc, &mut args, defaults.of_site())?;
    push_site_options(alloc, &mut args)?;
    push(
        &mut args,
        sites(alloc, "NUMBER", "The number of the site, 0 to 63", 0, 63),
    )?;
    push(
        &mut args,
        login_word(alloc, "USER", "The user who may log in"),
    )?;
    push(&mut args, queues(alloc))?;
    Ok(args)
}

// The subcommand `serve`.
fn serve<'a>(
    alloc: Global,
    defaults: &'a Defaults,
    is_in_file: bool,
) -> Result<Command<'a>, AllocError> {
    let args = serve_args(alloc, defaults, is_in_file)?;
    Command::new(alloc, "serve")
        .about("Serves Manager clients, each site at a port of its own")
        .after_help(SERVE_EXAMPLE)
        .args(args)
}

// Either the file of a store is given or the word that there is none.
fn store_or_volatile<'a>(alloc: Global) -> Result<ArgGroup<'a>, AllocError> {
    let group = ArgGroup::new(alloc, "kept").arg("store")?.arg("volatile")?;
    Ok(group.required(true))
}

// The subcommand `site`.
fn site<'a>(alloc: Global, defaults: &'a Defaults) -> Result<Command<'a>, AllocError> {
    let args = site_args(alloc, defaults)?;
    let command = Command::new(alloc, "site")
        .about("Serves Manager clients at one site, which is linked to others")
        .after_help(SITE_EXAMPLE)
        .args(args)?;
    match store_or_volatile(alloc) {
        Ok(group) => command.group(group),
        Err(error) => {
            drop(command);
            Err(error)
        }
    }
}

// The list with the command at its end. It fails if the command did, or when out of memory, and drops the list.
fn with<'a>(
    mut list: Vec<Command<'a>>,
    command: Result<Command<'a>, AllocError>,
) -> Result<Vec<Command<'a>>, AllocError> {
    list.push(command?)?;
    Ok(list)
}

// All subcommands, in the order of the help.
fn subcommands<'a>(
    alloc: Global,
    defaults: &'a Defaults,
    is_in_file: bool,
) -> Result<Vec<Command<'a>>, AllocError> {
    let list = with(Vec::new(alloc), script(alloc))?;
    let list = with(list, serve(alloc, defaults, is_in_file))?;
    let list = with(list, site(alloc, defaults))?;
    let list = with(list, audit(alloc))?;
    with(list, steps(alloc))
}

// What clap knows of the command line. It fails only when out of memory.
fn command<'a>(
    alloc: Global,
    defaults: &'a Defaults,
    is_in_file: bool,
) -> Result<Command<'a>, AllocError> {
    let subcommands = subcommands(alloc, defaults, is_in_file)?;
    Command::new(alloc, "queue_sites")
        .bin_name("queue_sites")?
        .about("The queue membership service of a call centre with several sites")
        .version("0.1.0")
        .subcommand_required(true)
        .subcommands(subcommands)
}
