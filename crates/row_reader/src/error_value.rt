//! The values of error model text.

use crate::condition_value::{
    put_condition, put_set, put_sourced, put_state, put_transition, put_written_set,
};
use crate::text::Text;
use crate::value::{
    put_end, put_name, put_names, put_optional_ref, put_optional_spot, put_point, put_ref,
    put_refs, put_spot, put_token,
};
use aadl_syntax::{
    Association, Composite, Emv2Clause, Emv2Library, EventDecl, EventKind, Flow, FlowKind,
    Identifier, MachineDecl, OtherTarget, Outgoing, PointItem, StateDecl, TokenList, TypeItem,
    TypeKind, TypesBlock, UserPath,
};
use plain_values::{List, Spot};

/// Writes the error model text of a package.
pub fn put_library_value(library: &Emv2Library, out: &mut Text) {
    for block in library.blocks.items() {
        put_block(block, out);
    }
    for machine in library.machines.items() {
        put_machine(machine, out);
    }
}

fn put_block(block: &TypesBlock, out: &mut Text) {
    out.put(b"types\n");
    put_refs(b"uses", &block.uses, out);
    put_refs(b"extends", &block.extends, out);
    for item in block.items.items() {
        put_type(item, out);
    }
}

fn put_type(item: &TypeItem, out: &mut Text) {
    out.put(match item.kind {
        TypeKind::Plain(_) => b"type ",
        TypeKind::Alias(_) => b"type alias ",
        TypeKind::Set(_) => b"set ",
        TypeKind::SetAlias(_) => b"set alias ",
    });
    put_name(&item.name, &item.spot, out);
    match &item.kind {
        TypeKind::Plain(parent) => put_optional_ref(b" extends ", parent, out),
        TypeKind::Alias(target) | TypeKind::SetAlias(target) => {
            out.put(b" ");
            put_ref(target, out);
        }
        TypeKind::Set(set) => {
            out.put(b" ");
            put_written_set(set, out);
        }
    }
    out.put(b"\n");
}

fn put_machine(machine: &MachineDecl, out: &mut Text) {
    out.put(b"machine ");
    put_name(&machine.name, &machine.spot, out);
    put_optional_spot(b" extends", &machine.extends, out);
    put_optional_spot(b" transforms", &machine.transforms, out);
    out.put(b"\n");
    put_refs(b"uses", &machine.uses, out);
    for event in machine.events.items() {
        put_event(event, out);
    }
    for state in machine.states.items() {
        put_declared_state(state, out);
    }
    for transition in machine.transitions.items() {
        put_transition(transition, out);
    }
    put_associations(&machine.associations, out);
}

fn put_event(event: &EventDecl, out: &mut Text) {
    out.put(b"event ");
    put_name(&event.name, &event.spot, out);
    match event.kind {
        EventKind::Error => {}
        EventKind::Recover => out.put(b" recover"),
        EventKind::Repair => out.put(b" repair"),
    }
    put_set(&event.set, out);
    out.put(b"\n");
}

fn put_declared_state(state: &StateDecl, out: &mut Text) {
    out.put(b"state ");
    put_name(&state.name, &state.spot, out);
    if state.initial {
        out.put(b" initial");
    }
    put_set(&state.set, out);
    out.put(b"\n");
}

/// Writes the error model text of a classifier.
pub fn put_clause_value(clause: &Emv2Clause, out: &mut Text) {
    out.put(b"clause");
    put_spot(&clause.spot, out);
    put_optional_ref(b" behavior ", &clause.machine, out);
    out.put(b"\n");
    put_refs(b"uses", &clause.uses, out);
    put_spots(b"mappings", &clause.mappings, out);
    for point in clause.points.items() {
        put_item(point, out);
    }
    for flow in clause.flows.items() {
        put_flow(flow, out);
    }
    put_behavior(clause, out);
    put_rest(clause, out);
}

fn put_behavior(clause: &Emv2Clause, out: &mut Text) {
    for event in clause.events.items() {
        put_event(event, out);
    }
    for transition in clause.transitions.items() {
        put_transition(transition, out);
    }
    for outgoing in clause.outgoing.items() {
        put_outgoing(outgoing, out);
    }
    for composite in clause.composites.items() {
        put_composite(composite, out);
    }
}

fn put_rest(clause: &Emv2Clause, out: &mut Text) {
    put_spots(b"connection errors", &clause.connection_errors, out);
    for point in clause.user_points.items() {
        out.put(b"path point ");
        put_name(&point.name, &point.spot, out);
        out.put(b"\n");
    }
    for path in clause.user_paths.items() {
        put_user_path(path, out);
    }
    put_associations(&clause.associations, out);
}

/// Writes a line of places, where there are some.
fn put_spots(word: &[u8], spots: &List<Spot>, out: &mut Text) {
    if spots.items().is_empty() {
        return;
    }
    out.put(word);
    for spot in spots.items() {
        out.put(b" ");
        put_spot(spot, out);
    }
    out.put(b"\n");
}

fn put_item(item: &PointItem, out: &mut Text) {
    out.put(b"point ");
    put_point(&item.point, out);
    if item.negative {
        out.put(b" not");
    }
    out.put(if item.outward { b" out " } else { b" in " });
    put_written_set(&item.set, out);
    out.put(b"\n");
}

fn put_flow(flow: &Flow, out: &mut Text) {
    out.put(b"flow ");
    put_name(&flow.name, &flow.spot, out);
    match &flow.kind {
        FlowKind::Source(point, set, state) => {
            out.put(b" source ");
            put_point(point, out);
            put_set(set, out);
            if let Some(state) = state {
                out.put(b" when ");
                put_state(state, out);
            }
        }
        FlowKind::Sink(point, set) => {
            out.put(b" sink ");
            put_point(point, out);
            put_set(set, out);
        }
        FlowKind::Path(from, from_set, to, to_set, mappings) => {
            out.put(b" path ");
            put_point(from, out);
            put_set(from_set, out);
            out.put(b" -> ");
            put_point(to, out);
            put_set(to_set, out);
            put_optional_spot(b" mappings", mappings, out);
        }
    }
    out.put(b"\n");
}

fn put_outgoing(outgoing: &Outgoing, out: &mut Text) {
    out.put(b"outgoing ");
    put_sourced(&outgoing.name, &outgoing.spot, &outgoing.source, out);
    out.put(b" -[");
    if let Some(condition) = &outgoing.condition {
        put_condition(condition, out);
    }
    out.put(b"]-> ");
    put_point(&outgoing.point, out);
    put_set(&outgoing.set, out);
    out.put(b"\n");
}

fn put_composite(composite: &Composite, out: &mut Text) {
    out.put(b"composite ");
    if let Some(name) = &composite.name {
        out.put(name.text());
    }
    put_spot(&composite.spot, out);
    out.put(b" [");
    match &composite.condition {
        Some(condition) => put_condition(condition, out),
        None => out.put(b"others"),
    }
    out.put(b"]-> ");
    put_state(&composite.target, out);
    out.put(b"\n");
}

fn put_user_path(path: &UserPath, out: &mut Text) {
    out.put(b"path ");
    put_name(&path.name, &path.spot, out);
    out.put(b" ");
    put_end(&path.from, out);
    out.put(b" -> ");
    put_end(&path.to, out);
    out.put(b"\n");
}

fn put_associations(associations: &List<Association>, out: &mut Text) {
    for association in associations.items() {
        out.put(b"property ");
        put_names(&association.name, b"::", out);
        put_tokens(&association.value, out);
        put_targets(&association.targets, out);
        put_others(&association.others, out);
        out.put(b"\n");
    }
}

/// Writes tokens, each behind a bar.
pub fn put_tokens(tokens: &TokenList, out: &mut Text) {
    for number in 0..tokens.len() {
        if let Some(token) = tokens.get(number) {
            out.put(b" | ");
            put_token(token.kind, token.start, token.end, token.text, out);
        }
    }
}

fn put_others(others: &List<OtherTarget>, out: &mut Text) {
    for other in others.items() {
        out.put(b" besides ");
        out.put(other.text.items());
    }
}

fn put_targets(targets: &List<List<Identifier>>, out: &mut Text) {
    for names in targets.items() {
        out.put(b" applies to ");
        put_names(names, b".", out);
    }
}
