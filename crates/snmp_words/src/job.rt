//! The job that arguments ask for.
ghost use Rattle.std.specs.Prelude.{◌≤◌};

/// The job that arguments ask for. Its texts aren't interpreted yet.
#[derive(Debug, Drop)]
pub enum Job<'a> {
    /// `snmptranslate`: names in another form, or details of them.
    Translate(TranslateJob<'a>),
    /// `snmpget`: the instances of names.
    Get(GetJob<'a>),
    /// `snmpwalk`: the instances below a name, one by one.
    Walk(WalkJob<'a>),
    /// `snmpbulkwalk`: the instances below a name, many at a time.
    BulkWalk(WalkJob<'a>),
    /// `snmpd`: a table that is served.
    Serve(ServeJob<'a>),
}

/// The arguments of `snmptranslate`.
#[derive(Debug, Drop)]
pub struct TranslateJob<'a> {
    /// The paths of the module files (`--mib`), in order.
    pub mibs: Vec<&'a str>,
    /// The letters of `-O`: how names are shown. The letters of several `-O` are joined in order.
    pub letters: String,
    /// The letters of `-T`: what is shown of each name beside the name itself.
    pub details: &'a str,
    /// The names, in order.
    pub names: Vec<&'a str>,
}

/// The agent to ask, the messages to ask it with, and how the replies are shown.
#[derive(Debug, Drop)]
pub struct Asking<'a> {
    /// The paths of the module files (`--mib`), in order.
    pub mibs: Vec<&'a str>,
    /// The letters of `-O`: how lines are shown. The letters of several `-O` are joined in order.
    pub letters: String,
    /// The version of SNMP; `2c` by default.
    pub protocol: &'a str,
    /// The community of requests; `public` by default.
    pub community: &'a str,
    /// How many times a request is sent again if no reply arrives; 5 by default.
    pub retries: u64,
    /// How many seconds to wait for a reply; 1 by default.
    pub seconds: u64,
    /// The greatest size, in octets, of a message of an agent in memory (`table:FILE`); 1472 by
    /// default.
    pub max_size: u64,
    /// The argument that names the agent.
    pub agent: &'a str,
    ghost few_retries: { retries ≤ 1000 },
    ghost some_seconds: { 1 ≤ seconds },
    ghost few_seconds: { seconds ≤ 3600 },
    ghost some_size: { 1 ≤ max_size },
    ghost datagram_size: { max_size ≤ 65507 },
}

/// The arguments of `snmpget`.
#[derive(Debug, Drop)]
pub struct GetJob<'a> {
    /// The agent to ask, and how.
    pub asking: Asking<'a>,
    /// The names, in order.
    pub names: Vec<&'a str>,
}

/// The arguments of `snmpwalk` and `snmpbulkwalk`.
#[derive(Debug, Drop)]
pub struct WalkJob<'a> {
    /// The agent to ask, and how.
    pub asking: Asking<'a>,
    /// The letters of `-C`: what the walk prints, and how many instances a request asks for. The
    /// letters of several `-C` are joined in order.
    pub letters: String,
    /// The name after which the walk continues (`--after`), if one is given.
    pub after: Option<&'a str>,
    /// The name of the walk's root, if one is given.
    pub name: Option<&'a str>,
}

/// The arguments of `snmpd`.
#[derive(Debug, Drop)]
pub struct ServeJob<'a> {
    /// The paths of the module files (`--mib`), in order.
    pub mibs: Vec<&'a str>,
    /// The path of the table file (`--table`).
    pub table: &'a str,
    /// The community of the agent; `public` by default.
    pub community: &'a str,
    /// The address that the agent listens on; `127.0.0.1:161` by default.
    pub listen: &'a str,
    /// The greatest size of a reply, in octets; 1472 by default.
    pub max_size: u64,
    /// How many turns are served, each a request or a second without one; 18446744073709551615 by
    /// default.
    pub turns: u64,
    ghost some_size: { 1 ≤ max_size },
    ghost datagram_size: { max_size ≤ 65507 },
}
