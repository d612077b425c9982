//! What a provider is asked: a manifest's plan, with places for the versions of the service.
use canary_base::error::Memory;
use canary_convert::work::Planned;
use canary_fetch::address::Address;
use canary_provider::plan::Provider;
use canary_provider::refusal::ProviderRefusal;
use serde_json::Value;
use std::alloc::Global;

const SECRET: &str = "a value of it is a secret of the cluster, which the agent does not read: let \
    a program of your own ask it, and give what it measures to canary agent --values -, in lines \
    SERVICE METRIC VALUE";

// What stands for a version as the plan is read.
const ANY: &str = "0";

// An argument that is a version of the service: the stable one, or that of its last attempt.
#[derive(Drop)]
struct Argument {
    name: String,
    is_stable: bool,
}

/// What a provider is asked. It may have a secret: print nothing of it.
#[derive(Drop)]
pub struct ProviderQuery {
    kind: String,
    json: String,
    arguments: Vec<Argument>,
    /// The most seconds of the exchange, if the plan has any.
    pub seconds: Option<u64>,
}

impl ProviderQuery {
    /// What is asked by a plan; or why nothing is.
    ///
    /// # Errors
    /// `Memory` if an allocation was refused.
    pub(crate) fn read(
        alloc: Global,
        planned: &Planned,
    ) -> Result<Result<ProviderQuery, &'static str>, Memory> {
        let Some(arguments) = arguments_in(alloc, planned.late.as_str())? else {
            return Ok(Err(SECRET));
        };
        let mut query = ProviderQuery {
            kind: String::from_str(alloc, planned.kind.as_str())?,
            json: String::from_str(alloc, planned.provider.as_str())?,
            arguments,
            seconds: None,
        };
        match seconds_of(query.provider(alloc, ANY, ANY)?) {
            Ok(seconds) => {
                query.seconds = seconds;
                Ok(Ok(query))
            }
            Err(why) => Ok(Err(why)),
        }
    }

    /// The provider with these versions in their places: that of the service's last attempt, and
    /// the stable one.
    ///
    /// # Errors
    /// `Memory` if an allocation was refused.
    pub(crate) fn provider(
        &self,
        alloc: Global,
        latest: &str,
        stable: &str,
    ) -> Result<Result<Provider, ProviderRefusal>, Memory> {
        let json = self.filled(alloc, latest, stable)?;
        Provider::read(alloc, self.kind.as_str(), json.as_str())
    }

    // The plan, with these versions in their places `{{args.NAME}}`.
    fn filled(&self, alloc: Global, latest: &str, stable: &str) -> Result<String, Memory> {
        let mut filled = String::new(alloc);
        let mut held = None;
        for piece in self.json.as_str().split("}}") {
            if let Some(held) = held {
                self.push_piece(&mut filled, held, latest, stable)?;
            }
            held = Some(piece);
        }
        filled.push_str(held.unwrap_or(""))?;
        Ok(filled)
    }

    // Appends a piece of the plan, and what the two brackets close that stand after it.
    fn push_piece(
        &self,
        filled: &mut String,
        piece: &str,
        latest: &str,
        stable: &str,
    ) -> Result<(), Memory> {
        if let Some((before, name)) = piece.rsplit_once("{{args.")
            && let Some(is_stable) = self.is_stable(name)
        {
            filled.push_str(before)?;
            filled.push_str(if is_stable { stable } else { latest })?;
            return Ok(());
        }
        filled.push_str(piece)?;
        filled.push_str("}}")?;
        Ok(())
    }

    // Whether the argument of this name is the stable version; none if it is no version.
    fn is_stable(&self, name: &str) -> Option<bool> {
        for argument in &self.arguments {
            if argument.name.as_str() == name {
                return Some(argument.is_stable);
            }
        }
        None
    }
}

// The seconds that a plan gives to the exchange; or why its provider is not asked, as when no
// connection can go to its address.
fn seconds_of(read: Result<Provider, ProviderRefusal>) -> Result<Option<u64>, &'static str> {
    match read {
        Ok(provider) => match Address::read(provider.address.as_str()) {
            Ok(_) => Ok(provider.seconds),
            Err(fault) => Err(fault.text()),
        },
        Err(refusal) => Err(refusal.text()),
    }
}

// The arguments that are known only as it is measured; none if one of them is no version.
fn arguments_in(alloc: Global, late: &str) -> Result<Option<Vec<Argument>>, Memory> {
    match Value::from_str(alloc, late) {
        Ok(value) => arguments_of(alloc, &value),
        Err(fault) if fault.is_memory() => Err(Memory),
        Err(_) => Ok(None),
    }
}

// The arguments that an object has by their names; none if it is no object, or one is no version.
fn arguments_of(alloc: Global, late: &Value) -> Result<Option<Vec<Argument>>, Memory> {
    let mut arguments = Vec::new(alloc);
    let Some(members) = late.as_object() else {
        return Ok(None);
    };
    for (name, source) in members.iter() {
        let Some(is_stable) = is_of_stable(source) else {
            return Ok(None);
        };
        arguments.push(Argument {
            name: String::from_str(alloc, name.as_str())?,
            is_stable,
        })?;
    }
    Ok(Some(arguments))
}

// Whether a source of an argument is the hash of the stable version's pods; none if it is no hash.
fn is_of_stable(source: &Value) -> Option<bool> {
    match source.get("podTemplateHashValue")?.as_str()? {
        "Stable" => Some(true),
        "Latest" => Some(false),
        _ => None,
    }
}
