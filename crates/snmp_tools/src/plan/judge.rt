//! Judges arguments that are common to the jobs that ask an agent: the version, the letters of
//! `-O`, the community and AGENT.
ghost use Rattle.std.specs.Prelude.{◌≡◌, ◌≤◌, codes, length, IfErr, IfOk};
ghost use Rattle.std.specs.Prelude.{string_bytes};
ghost use Rattle.snmp_words.specs.Words.{asking_words};
ghost use Rattle.snmp_net.specs.Address.{address_of};
ghost use Rattle.snmp_tools.specs.{Asking.AreShown, Asking.HasAgent, FaultText.fault_of};
ghost use Rattle.snmp_tools.specs.private.Planned.{AgentFails, ShowingFails};

use crate::failure::Failure;
use smi_show::Letters;
use snmp_net::AgentAddress;
use snmp_words::Asking;

/// Returns what the letters of `-O` say. Fails if the version isn't 2c, or at the first octet that
/// has no meaning.
pub(super) fn read_shown<'a>(asking: &Asking<'a>) -> Result<Letters, Failure<'a>>
    ensures version { IfOk result (λ _. asking.now.protocol.now ≡ codes "2c") }
    ensures letters { IfOk result (AreShown (string_bytes asking.now.letters)) }
    ensures err { IfErr result (λ e. ShowingFails (asking_words asking.now) (fault_of e)) }
{
    if asking.protocol != "2c" {
        return Err(Failure::Version(asking.protocol));
    }
    match Letters::parse(asking.letters.as_bytes()) {
        Ok(letters) => Ok(letters),
        Err(letter) => Err(Failure::Letter(letter)),
    }
}

/// Returns the address that AGENT says. Fails if the community has more than 255 octets, or if
/// AGENT isn't a valid address.
pub(super) fn read_agent<'a>(asking: &Asking<'a>) -> Result<AgentAddress<'a>, Failure<'a>>
    ensures community { IfOk result (λ _. length asking.now.community.now ≤ 255) }
    ensures agent { IfOk result (λ agent. HasAgent asking.now.agent.now (address_of agent)) }
    ensures err { IfErr result (λ e. AgentFails (asking_words asking.now) (fault_of e)) }
{
    if asking.community.len() > 255 {
        return Err(Failure::Community);
    }
    AgentAddress::read(asking.agent).ok_or(Failure::Agent(asking.agent))
}
