//! How words leave tiles and sources.
use crate::queues::Stay;
use crate::routes::{Route, Shape};
use crate::schedule::{Lane, Link, Schedule};
use crate::task::LocalId;
use raw_frame::{ValueId, net_index};
use raw_grid::Net;

/// A word on its way.
#[derive(Clone, Copy, PartialEq, Eq)]
pub struct Message {
    pub net: Net,
    /// When it makes its first hop.
    pub first: usize,
    /// Which of the ways of its value it goes.
    pub shape: Shape,
}

/// When an out may make its last hop, and on which network.
#[derive(Clone, Copy)]
pub(crate) struct Due {
    pub(crate) from: usize,
    pub(crate) until: usize,
    pub(crate) net: Net,
}

/// A word that is to leave.
#[derive(Clone, Copy)]
pub(crate) struct Departure {
    pub(crate) value: ValueId,
    /// When a tile sends it; none of a word of a source.
    pub(crate) pushed: Option<usize>,
    /// When it may make its first hop.
    pub(crate) from: usize,
    pub(crate) until: usize,
    pub(crate) due: Option<Due>,
}

impl Schedule<'_> {
    // The networks that a word may take, the first that should be tried first.
    fn nets(&self, departure: Departure) -> (Net, Option<Net>) {
        if let Some(due) = departure.due {
            return (due.net, None);
        }
        if let Some(source) = self.task.body.origin(departure.value).source() {
            let (_, net) = self.task.site.source_end(source);
            return (net, None);
        }
        let [one, two] = self.traffic;
        if one <= two {
            (Net::One, Some(Net::Two))
        } else {
            (Net::Two, Some(Net::One))
        }
    }

    // Whether a word may make its first hop in a cycle.
    fn may_leave(&self, value: ValueId, net: Net, time: usize) -> bool {
        match self.task.body.origin(value).source() {
            Some(source) => self.sources.is_free(source, time),
            None => self
                .leaving
                .is_free(Lane::of(self.task.homes.at(value), net), time),
        }
    }

    // Takes the place of its first hop, or gives it back.
    fn mark_leaving(&mut self, value: ValueId, message: Message, is_taken: bool) {
        let place = Lane::of(self.task.homes.at(value), message.net);
        match self.task.body.origin(value).source() {
            Some(source) => self.sources.put(source, message.first, is_taken),
            None => self.leaving.put(place, message.first, is_taken),
        }
    }

    // Whether all links of a way are free.
    fn has_links(&self, route: &Route, message: Message) -> bool {
        for hop in &route.hops {
            let link = Link::of(hop.tile, message.net, hop.to);
            let time = message.first.saturating_add(hop.after);
            if !self.links.is_free(link, time) {
                return false;
            }
        }
        true
    }

    // Takes the links of a way, or gives them back.
    fn mark_links(&mut self, value: ValueId, message: Message, is_taken: bool) {
        let task = self.task;
        let Some(route) = task.route(value, message.shape) else {
            return;
        };
        for hop in &route.hops {
            let link = Link::of(hop.tile, message.net, hop.to);
            let time = message.first.saturating_add(hop.after);
            self.links.put(link, time, is_taken);
        }
        self.mark_traffic(message.net, route.hops.len(), is_taken);
    }

    // Counts the hops on a network.
    fn mark_traffic(&mut self, net: Net, hops: usize, is_taken: bool) {
        if let Some(traffic) = self.traffic.get_mut(net_index(net)) {
            *traffic = if is_taken {
                traffic.saturating_add(hops)
            } else {
                traffic.saturating_sub(hops)
            };
        }
    }

    // The stay of a word in the queue from its tile.
    fn outward_stay(&self, pushed: usize, message: Message) -> Stay {
        Stay {
            from: pushed.saturating_mul(2),
            until: message.first.saturating_mul(2),
        }
    }

    // A word stands in the queue from its tile.
    fn push(&mut self, departure: Departure, message: Message) -> bool {
        match departure.pushed {
            Some(pushed) => {
                let queue = Lane::of(self.task.homes.at(departure.value), message.net);
                let stay = self.outward_stay(pushed, message);
                self.outward.add(queue, stay)
            }
            None => true,
        }
    }

    // It does not.
    fn unpush(&mut self, value: ValueId, pushed: Option<usize>, message: Message) {
        if let Some(pushed) = pushed {
            let queue = Lane::of(self.task.homes.at(value), message.net);
            let stay = self.outward_stay(pushed, message);
            self.outward.remove(queue, stay);
        }
    }

    // All tiles to which a word comes receive it. False where one cannot; then none does.
    fn receive_all(&mut self, value: ValueId, message: Message) -> bool {
        let task = self.task;
        let Some(route) = task.route(value, message.shape) else {
            return false;
        };
        let mut place: usize = 0;
        for local in (task.first_local(value).0..task.end_of_locals(value).0).map(LocalId) {
            if task.locals.at(local).comes {
                let delay = route.delays.get(place).copied().unwrap_or(0);
                place = place.saturating_add(1);
                if !self.receive(local, message.net, message.first.saturating_add(delay)) {
                    self.unreceive_all(value);
                    return false;
                }
            }
        }
        true
    }

    // No tile receives a word.
    fn unreceive_all(&mut self, value: ValueId) {
        let task = self.task;
        for local in (task.first_local(value).0..task.end_of_locals(value).0).map(LocalId) {
            self.unreceive(local);
        }
    }

    // Whether an out that goes this way comes to its sink when it may.
    fn is_due(&self, departure: Departure, route: &Route, first: usize) -> bool {
        match departure.due {
            Some(due) => {
                let last = first.saturating_add(route.out_delay);
                due.from <= last && last <= due.until
            }
            None => true,
        }
    }

    // Sends a word, if all is free on its way.
    fn try_message(&mut self, departure: Departure, message: Message) -> bool {
        let (task, value) = (self.task, departure.value);
        let Some(route) = task.route(value, message.shape) else {
            return false;
        };
        if !self.is_due(departure, route, message.first) || !self.has_links(route, message) {
            return false;
        }
        if !self.push(departure, message) {
            return false;
        }
        if !self.receive_all(value, message) {
            self.unpush(value, departure.pushed, message);
            return false;
        }
        self.mark_links(value, message, true);
        self.mark_leaving(value, message, true);
        self.messages.put(value, Some(message));
        true
    }

    // Sends a word with its first hop in a cycle on a network.
    fn leave(&mut self, departure: Departure, net: Net, first: usize) -> bool {
        self.left = self.left.saturating_sub(1);
        if !self.may_leave(departure.value, net, first) {
            return false;
        }
        for shape in [Shape::RowFirst, Shape::ColumnFirst] {
            if self.try_message(departure, Message { net, first, shape }) {
                return true;
            }
        }
        false
    }

    /// Sends a word as soon as may be.
    pub(crate) fn send(&mut self, departure: Departure) -> bool {
        let (first, second) = self.nets(departure);
        for time in departure.from..=departure.until {
            if self.left == 0 {
                return false;
            }
            if self.leave(departure, first, time) {
                return true;
            }
            if let Some(second) = second {
                if self.leave(departure, second, time) {
                    return true;
                }
            }
        }
        false
    }

    /// A word is not sent.
    pub(crate) fn unsend(&mut self, value: ValueId) {
        if let Some(message) = self.messages.at(value) {
            let pushed = match self.task.body.origin(value).source() {
                Some(_) => None,
                None => self.sent.at(value).or(self.made.at(value)),
            };
            self.mark_leaving(value, message, false);
            self.mark_links(value, message, false);
            self.unreceive_all(value);
            self.unpush(value, pushed, message);
            self.messages.put(value, None);
        }
    }

    /// When an out makes its last hop.
    pub(crate) fn last_hop(&self, value: ValueId) -> Option<usize> {
        let message = self.messages.at(value)?;
        let route = self.task.route(value, message.shape)?;
        Some(message.first.saturating_add(route.out_delay))
    }
}
