//! `--route`: the hops from the address to a device behind routers.

use cip_route::Route;
use clap::ArgMatches;
use enip_common::{ArgumentError, CommandError, NamedReason, Reason};

/// The route that the arguments give, as text that was parsed once.
#[derive(Clone, Copy)]
pub struct RouteOption<'a> {
    hops: Option<&'a str>,
}

impl<'a> RouteOption<'a> {
    /// The option in the arguments.
    pub fn from_matches(matches: &ArgMatches<'a>) -> Result<RouteOption<'a>, ArgumentError<'a>> {
        let hops = matches.get_str("route");
        if let Some(hops) = hops {
            if let Err(fault) = Route::parse(hops.as_bytes()) {
                return Err(ArgumentError::Route(hops, fault));
            }
        }
        Ok(RouteOption { hops })
    }

    /// The route. Without the option it has no hops.
    pub fn route(self) -> Result<Route, CommandError<'a>> {
        let Some(hops) = self.hops else {
            return Ok(Route::new());
        };
        match Route::parse(hops.as_bytes()) {
            Ok(route) => Ok(route),
            Err(_) => Err(CommandError::of_reason(Reason::Named(hops, NamedReason::Failed))),
        }
    }
}
